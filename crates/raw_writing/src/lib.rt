// Requests to write a raw packet, and to check one by the register.
#![tactic(auto)]

use output::Page;
use packet_requests::{read_limit, write, write_check};
use raw_words::read_raw;
use rooms::{fill, write_told};
use words::Line;

#[derive(Clone, Copy)]
pub enum Request {
    WriteRaw { strict: bool },
    RegisterRaw,
}

// Which of these requests a name is.
pub fn named(name: &[u8]) -> Option<Request> {
    match name {
        b"write-raw" => Some(Request::WriteRaw { strict: false }),
        b"write-raw-strict" => Some(Request::WriteRaw { strict: true }),
        b"register-raw" => Some(Request::RegisterRaw),
        _ => None,
    }
}

// Answers a request. The packet's bytes go to the store, and what is written to the room.
pub fn answer(
    request: Request,
    line: &mut Line,
    store: &mut [u8],
    room: &mut [u8],
    page: &mut Page,
) -> Option<()> {
    match request {
        Request::WriteRaw { strict } => write_raw(strict, line, store, room, page),
        Request::RegisterRaw => register(line, store, page),
    }
}

// write-raw LIMIT ROOM RAW, to an output whose bytes are known before
fn write_raw(
    strict: bool,
    line: &mut Line,
    store: &mut [u8],
    room: &mut [u8],
    page: &mut Page,
) -> Option<()> {
    let limit = read_limit(line)?;
    let room = line.room(room)?;
    let (raw, edits) = read_raw(line, store)?;
    line.finished()?;
    fill(room);
    let written = write(strict, limit, raw.held(edits), room);
    write_told(page, written, room);
    Some(())
}

// register-raw RAW
fn register(line: &mut Line, store: &mut [u8], page: &mut Page) -> Option<()> {
    let (raw, edits) = read_raw(line, store)?;
    line.finished()?;
    write_check(page, raw.held(edits));
    Some(())
}
