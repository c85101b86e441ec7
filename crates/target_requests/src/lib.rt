// Requests on path and query as text: the text of a raw packet's records, and the packet of a text.
#![tactic(auto)]

mod told;

use output::Page;
use raw_words::read_raw;
use rooms::{fill, write_told};
use target_reading::read_target;
use target_writing::write_target;
use words::Line;

#[derive(Clone, Copy)]
pub enum Request {
    Write,
    Read,
}

// Which of these requests a name is.
pub fn named(name: &[u8]) -> Option<Request> {
    match name {
        b"target-write" => Some(Request::Write),
        b"target-read" => Some(Request::Read),
        _ => None,
    }
}

// Answers a request. A packet's bytes or a text go to the store, and what is written to as much of the room as is named.
pub fn answer(
    request: Request,
    line: &mut Line,
    store: &mut [u8],
    room: &mut [u8],
    page: &mut Page,
) -> Option<()> {
    let room = line.room(room)?;
    match request {
        Request::Write => write(line, store, room, page),
        Request::Read => read(line, store, room, page),
    }
}

// target-write ROOM RAW
fn write(line: &mut Line, store: &mut [u8], room: &mut [u8], page: &mut Page) -> Option<()> {
    let (raw, edits) = read_raw(line, store)?;
    line.finished()?;
    fill(room);
    let held = raw.held(edits);
    let written = write_target(held.packet, held.stores, room);
    write_told(page, written, room);
    Some(())
}

// target-read ROOM START HEX
fn read(line: &mut Line, store: &mut [u8], room: &mut [u8], page: &mut Page) -> Option<()> {
    let start: u32 = line.number(b' ')?;
    let text = line.stored(store)?;
    line.finished()?;
    fill(room);
    let read = read_target(text, room, start);
    told::write_read(page, read, room, start as usize);
    Some(())
}
