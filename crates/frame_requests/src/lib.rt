// Requests on frames: a datagram to its frame over TCP, and back with a type and an id.
#![tactic(auto)]

use class_words::read_type;
use framing::{from_frame, to_frame};
use output::Page;
use rooms::{fill, write_told};
use words::Line;

#[derive(Clone, Copy)]
pub enum Request {
    Out,
    Back,
}

// Which of these requests a name is.
pub fn named(name: &[u8]) -> Option<Request> {
    match name {
        b"frame-out" => Some(Request::Out),
        b"frame-back" => Some(Request::Back),
        _ => None,
    }
}

// Answers a request. The datagram or the frame goes to the store, and what it becomes to as much of the room as is named.
pub fn answer(
    request: Request,
    line: &mut Line,
    store: &mut [u8],
    room: &mut [u8],
    page: &mut Page,
) -> Option<()> {
    let room = line.room(room)?;
    match request {
        Request::Out => out(line, store, room, page),
        Request::Back => back(line, store, room, page),
    }
}

// frame-out ROOM HEX
fn out(line: &mut Line, store: &mut [u8], room: &mut [u8], page: &mut Page) -> Option<()> {
    let datagram = line.stored(store)?;
    line.finished()?;
    fill(room);
    let written = to_frame(datagram, room);
    write_told(page, written, room);
    Some(())
}

// frame-back ROOM TYPE ID HEX
fn back(line: &mut Line, store: &mut [u8], room: &mut [u8], page: &mut Page) -> Option<()> {
    let kind = read_type(line)?;
    let id = line.number(b' ')?;
    let frame = line.stored(store)?;
    line.finished()?;
    fill(room);
    let written = from_frame(frame, kind, id, room);
    write_told(page, written, room);
    Some(())
}
