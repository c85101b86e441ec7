// Code classes as words. A class is named as the enum names it, with a dot before what it holds.
use class::{MessageClass, RequestType, ResponseType};
use output::Page;
use words::Line;

// The code bytes that have a name, each with its name.
const NAMES: [(u8, &[u8]); 35] = [
    (0x00, b"Empty"),
    (0x01, b"Request.Get"),
    (0x02, b"Request.Post"),
    (0x03, b"Request.Put"),
    (0x04, b"Request.Delete"),
    (0x05, b"Request.Fetch"),
    (0x06, b"Request.Patch"),
    (0x07, b"Request.IPatch"),
    (0x41, b"Response.Created"),
    (0x42, b"Response.Deleted"),
    (0x43, b"Response.Valid"),
    (0x44, b"Response.Changed"),
    (0x45, b"Response.Content"),
    (0x5F, b"Response.Continue"),
    (0x80, b"Response.BadRequest"),
    (0x81, b"Response.Unauthorized"),
    (0x82, b"Response.BadOption"),
    (0x83, b"Response.Forbidden"),
    (0x84, b"Response.NotFound"),
    (0x85, b"Response.MethodNotAllowed"),
    (0x86, b"Response.NotAcceptable"),
    (0x88, b"Response.RequestEntityIncomplete"),
    (0x89, b"Response.Conflict"),
    (0x8C, b"Response.PreconditionFailed"),
    (0x8D, b"Response.RequestEntityTooLarge"),
    (0x8F, b"Response.UnsupportedContentFormat"),
    (0x96, b"Response.UnprocessableEntity"),
    (0x9D, b"Response.TooManyRequests"),
    (0xA0, b"Response.InternalServerError"),
    (0xA1, b"Response.NotImplemented"),
    (0xA2, b"Response.BadGateway"),
    (0xA3, b"Response.ServiceUnavailable"),
    (0xA4, b"Response.GatewayTimeout"),
    (0xA5, b"Response.ProxyingNotSupported"),
    (0xA8, b"Response.HopLimitReached"),
];

// The words of the classes that no code byte has.
const UNKNOWN_REQUEST: &[u8] = b"Request.UnKnown";

const UNKNOWN_RESPONSE: &[u8] = b"Response.UnKnown";

// Puts the word of a class.
pub fn write_class(page: &mut Page, class: MessageClass) {
    match class {
        MessageClass::Reserved(byte) => page.number(b"Reserved.", byte as u64),
        MessageClass::Request(RequestType::UnKnown) => page.text(UNKNOWN_REQUEST),
        MessageClass::Response(ResponseType::UnKnown) => page.text(UNKNOWN_RESPONSE),
        _ => page.text(name_of(class.to_byte())),
    }
}

// The name of a code byte.
fn name_of(code: u8) -> &'static [u8] {
    for (listed, name) in NAMES {
        if listed == code {
            return name;
        }
    }
    b""
}

// Reads the word of a class.
pub fn read_class(line: &mut Line) -> Option<MessageClass> {
    line.after(b' ')?;
    if line.past(b"Reserved").is_some() {
        return Some(MessageClass::Reserved(line.number(b'.')?));
    }
    class_named(line.name())
}

fn class_named(word: &[u8]) -> Option<MessageClass> {
    if word == UNKNOWN_REQUEST {
        return Some(MessageClass::Request(RequestType::UnKnown));
    }
    if word == UNKNOWN_RESPONSE {
        return Some(MessageClass::Response(ResponseType::UnKnown));
    }
    for (code, name) in NAMES {
        if name == word {
            return Some(MessageClass::from_byte(code));
        }
    }
    None
}
