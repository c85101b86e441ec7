// Requests on uints, texts and the numbers of options and content formats.
#![tactic(auto)]

mod numbers;
mod texts;
mod uints;

use output::Page;
use words::Line;

#[derive(Clone, Copy)]
pub enum Request {
    UintRead,
    UintWrite,
    ToUint,
    FromUint,
    TextRead,
    TextWrite,
    TextPart,
    IsOption,
    IsFormat,
    OptionIndex,
    FormatIndex,
    Properties,
}

// Which of these requests a name is.
pub fn named(name: &[u8]) -> Option<Request> {
    match name {
        b"uint-read" => Some(Request::UintRead),
        b"uint-write" => Some(Request::UintWrite),
        b"to-uint" => Some(Request::ToUint),
        b"from-uint" => Some(Request::FromUint),
        b"text-read" => Some(Request::TextRead),
        b"text-write" => Some(Request::TextWrite),
        b"text-part" => Some(Request::TextPart),
        b"is-option" => Some(Request::IsOption),
        b"is-format" => Some(Request::IsFormat),
        b"option-index" => Some(Request::OptionIndex),
        b"format-index" => Some(Request::FormatIndex),
        b"properties" => Some(Request::Properties),
        _ => None,
    }
}

// Answers a request. Its value goes to the store, and what it writes to as much of the room as it names.
pub fn answer(
    request: Request,
    line: &mut Line,
    store: &mut [u8],
    room: &mut [u8],
    page: &mut Page,
) -> Option<()> {
    match request {
        Request::UintRead => uints::uint_read(line, store, page),
        Request::UintWrite => uints::uint_write(line, room, page),
        Request::ToUint => uints::to_uint(line, store, page),
        Request::FromUint => uints::from_uint(line, room, page),
        Request::TextRead => texts::text_read(line, store, page),
        Request::TextWrite => texts::text_write(line, store, room, page),
        Request::TextPart => texts::text_part(line, store, page),
        Request::IsOption => numbers::is_option(line, page),
        Request::IsFormat => numbers::is_format(line, page),
        Request::OptionIndex => numbers::option_index(line, page),
        Request::FormatIndex => numbers::format_index(line, page),
        Request::Properties => numbers::properties(line, page),
    }
}
