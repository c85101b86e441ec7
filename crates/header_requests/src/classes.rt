// Requests on codes, their classes, and message types.
use class::MessageClass;
use class_words::{read_class, write_class};
use header::{Header, MessageType};
use output::Page;
use telling::{write_refused, write_truth, write_written};
use words::Line;

fn write_word(page: &mut Page, class: MessageClass) {
    page.text(b"class ");
    write_class(page, class);
}

// code-read HEX
pub fn code_read(line: &mut Line, store: &mut [u8], page: &mut Page) -> Option<()> {
    let code = line.stored(store)?;
    line.finished()?;
    match Header::new().set_code(code) {
        Ok(header) => write_word(page, header.get_class()),
        Err(why) => write_refused(page, why),
    }
    Some(())
}

// code-write ROOM CLASS
pub fn code_write(line: &mut Line, room: &mut [u8], page: &mut Page) -> Option<()> {
    let room = line.room(room)?;
    let class = read_class(line)?;
    line.finished()?;
    let written = Header::new().set_class(class).get_code(room);
    write_written(page, written, room);
    Some(())
}

// type-of NUMBER
pub fn type_of(line: &mut Line, page: &mut Page) -> Option<()> {
    let message_type = MessageType::from_number(line.number(b' ')?);
    line.finished()?;
    page.number(b"type ", message_type.to_number() as u64);
    Some(())
}

// class-of BYTE
pub fn class_of(line: &mut Line, page: &mut Page) -> Option<()> {
    let class = MessageClass::from_byte(line.number(b' ')?);
    line.finished()?;
    write_word(page, class);
    Some(())
}

// byte-of CLASS
pub fn byte_of(line: &mut Line, page: &mut Page) -> Option<()> {
    let class = read_class(line)?;
    line.finished()?;
    page.number(b"byte ", class.to_byte() as u64);
    Some(())
}

// is-error CLASS, of a response
pub fn is_error(line: &mut Line, page: &mut Page) -> Option<()> {
    let MessageClass::Response(response) = read_class(line)? else {
        return None;
    };
    line.finished()?;
    write_truth(page, response.is_error());
    Some(())
}
