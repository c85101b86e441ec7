// Requests on headers, raw and not.
use class_words::{read_header, write_class_and_id, write_header, write_version_and_type};
use header::{Header, HeaderRaw};
use output::Page;
use telling::{write_refused, write_written};
use words::Line;

// header-read HEX
pub fn header_read(line: &mut Line, store: &mut [u8], page: &mut Page) -> Option<()> {
    let bytes = line.stored(store)?;
    line.finished()?;
    match HeaderRaw::try_from(bytes) {
        Ok(raw) => write_read(page, raw),
        Err(why) => write_refused(page, why),
    }
    Some(())
}

// A header, with the token's length before its code byte.
fn write_read(page: &mut Page, raw: HeaderRaw) {
    let header = Header::from_raw(raw);
    page.text(b"header");
    write_version_and_type(page, header);
    page.number(b" ", raw.token_length() as u64);
    page.number(b" ", header.code.to_byte() as u64);
    write_class_and_id(page, header);
}

// header-raw HEX
pub fn header_raw(line: &mut Line, store: &mut [u8], page: &mut Page) -> Option<()> {
    let bytes = line.stored(store)?;
    line.finished()?;
    match HeaderRaw::try_from(bytes) {
        Ok(raw) => write_raw(page, raw),
        Err(why) => write_refused(page, why),
    }
    Some(())
}

fn write_raw(page: &mut Page, raw: HeaderRaw) {
    page.number(b"header-raw ", raw.ver_type_tkl as u64);
    page.number(b" ", raw.code as u64);
    page.number(b" ", raw.message_id as u64);
}

// header-code HEX: the code of a new header is set from a text. A refusal leaves that header as it is.
pub fn header_code(line: &mut Line, store: &mut [u8], page: &mut Page) -> Option<()> {
    let code = line.stored(store)?;
    line.finished()?;
    let new = Header::new();
    match new.set_code(code) {
        Ok(header) => write_head(page, header),
        Err(why) => {
            write_refused(page, why);
            write_header(page, new);
        }
    }
    Some(())
}

fn write_head(page: &mut Page, header: Header) {
    page.text(b"head");
    write_header(page, header);
}

// header-new
pub fn header_new(line: &mut Line, page: &mut Page) -> Option<()> {
    line.finished()?;
    write_head(page, Header::new());
    Some(())
}

// header-raw-new
pub fn header_raw_new(line: &mut Line, page: &mut Page) -> Option<()> {
    line.finished()?;
    write_raw(page, HeaderRaw::new());
    Some(())
}

// header-raw-write ROOM BYTE BYTE ID
pub fn header_raw_write(line: &mut Line, room: &mut [u8], page: &mut Page) -> Option<()> {
    let room = line.room(room)?;
    let raw = HeaderRaw {
        ver_type_tkl: line.number(b' ')?,
        code: line.number(b' ')?,
        message_id: line.number(b' ')?,
    };
    line.finished()?;
    write_written(page, raw.serialize_into(room), room);
    Some(())
}

// header-write ROOM TOKENLENGTH VERSION TYPE CLASS ID
pub fn header_write(line: &mut Line, room: &mut [u8], page: &mut Page) -> Option<()> {
    let room = line.room(room)?;
    let token_length = line.number(b' ')?;
    let header = read_header(line)?;
    line.finished()?;
    let raw = header.to_raw(token_length);
    write_written(page, raw.serialize_into(room), room);
    Some(())
}
