// Requests on headers, their codes and classes, and message types.
#![tactic(auto)]

mod classes;
mod headers;

use output::Page;
use words::Line;

#[derive(Clone, Copy)]
pub enum Request {
    HeaderRead,
    HeaderRaw,
    HeaderCode,
    CodeRead,
    HeaderNew,
    HeaderRawNew,
    TypeOf,
    ClassOf,
    ByteOf,
    IsError,
    HeaderRawWrite,
    HeaderWrite,
    CodeWrite,
}

// Which of these requests a name is.
pub fn named(name: &[u8]) -> Option<Request> {
    match name {
        b"header-read" => Some(Request::HeaderRead),
        b"header-raw" => Some(Request::HeaderRaw),
        b"header-code" => Some(Request::HeaderCode),
        b"code-read" => Some(Request::CodeRead),
        b"header-new" => Some(Request::HeaderNew),
        b"header-raw-new" => Some(Request::HeaderRawNew),
        b"type-of" => Some(Request::TypeOf),
        b"class-of" => Some(Request::ClassOf),
        b"byte-of" => Some(Request::ByteOf),
        b"is-error" => Some(Request::IsError),
        b"header-raw-write" => Some(Request::HeaderRawWrite),
        b"header-write" => Some(Request::HeaderWrite),
        b"code-write" => Some(Request::CodeWrite),
        _ => None,
    }
}

// Answers a request. Its value goes to the store, and what it writes to the room.
pub fn answer(
    request: Request,
    line: &mut Line,
    store: &mut [u8],
    room: &mut [u8],
    page: &mut Page,
) -> Option<()> {
    match request {
        Request::HeaderRead => headers::header_read(line, store, page),
        Request::HeaderRaw => headers::header_raw(line, store, page),
        Request::HeaderCode => headers::header_code(line, store, page),
        Request::CodeRead => classes::code_read(line, store, page),
        Request::HeaderNew => headers::header_new(line, page),
        Request::HeaderRawNew => headers::header_raw_new(line, page),
        Request::TypeOf => classes::type_of(line, page),
        Request::ClassOf => classes::class_of(line, page),
        Request::ByteOf => classes::byte_of(line, page),
        Request::IsError => classes::is_error(line, page),
        Request::HeaderRawWrite => headers::header_raw_write(line, room, page),
        Request::HeaderWrite => headers::header_write(line, room, page),
        Request::CodeWrite => classes::code_write(line, room, page),
    }
}
