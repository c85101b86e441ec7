// Headers as words: version, type, class and id.
use crate::classes::{read_class, write_class};
use header::{Header, MessageType};
use output::Page;
use words::Line;

// Puts the numbers that a header begins with: its version and its type.
pub fn write_version_and_type(page: &mut Page, header: Header) {
    page.number(b" ", header.version as u64);
    page.number(b" ", header.message_type.to_number() as u64);
}

// Puts the words that a header ends with: its class and its message id.
pub fn write_class_and_id(page: &mut Page, header: Header) {
    page.byte(b' ');
    write_class(page, header.code);
    page.number(b" ", header.message_id as u64);
}

// Puts a header, with its code byte before its class.
pub fn write_header(page: &mut Page, header: Header) {
    write_version_and_type(page, header);
    page.number(b" ", header.code.to_byte() as u64);
    write_class_and_id(page, header);
}

// Reads the words of a header.
pub fn read_header(line: &mut Line) -> Option<Header> {
    Some(Header {
        version: line.number(b' ')?,
        message_type: read_type(line)?,
        code: read_class(line)?,
        message_id: line.number(b' ')?,
    })
}

// Reads the number of a message type.
pub fn read_type(line: &mut Line) -> Option<MessageType> {
    Some(MessageType::from_number(line.number_to(b' ', 3)?))
}
