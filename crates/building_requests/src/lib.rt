// Requests to build a message call by call, in a room whose bytes are known before.
#![tactic(auto)]

mod calls;
mod options;

use calls::{Given, Stopped};
use class_words::read_header;
use output::Page;
use rooms::{are_before, fill};
use telling::{write_kept, write_refused};
use words::{Line, part};

#[derive(Clone, Copy)]
pub enum Request {
    Build,
    BuildStrict,
}

// Which of these requests a name is.
pub fn named(name: &[u8]) -> Option<Request> {
    match name {
        b"build" => Some(Request::Build),
        b"build-strict" => Some(Request::BuildStrict),
        _ => None,
    }
}

// build ROOM VERSION TYPE CLASS ID TOKEN OPTIONS PAYLOAD. Token and payload go to the start of the store, each value after them
// when its call is made, and what is built to as much of the room as is named.
pub fn answer(
    request: Request,
    line: &mut Line,
    store: &mut [u8],
    room: &mut [u8],
    page: &mut Page,
) -> Option<()> {
    let room = line.room(room)?;
    let header = read_header(line)?;
    let given = read_given(line, store)?;
    line.finished()?;
    fill(room);
    let strict = matches!(request, Request::BuildStrict);
    match calls::build(strict, header, given, store, room) {
        Ok(length) => {
            page.number(b"built ", length as u64);
            write_built(page, room, length);
        }
        Err(stopped) => write_stopped(page, room, stopped),
    }
    Some(())
}

// Reads the token and the payload into the store; the options between them have to be some, each with a place after these.
fn read_given<'a>(line: &mut Line<'a>, store: &mut [u8]) -> Option<Given<'a>> {
    let token = line.bytes(b' ')?.put(store, 0).ok()?;
    let list = *line;
    options::pass(line, store, token)?;
    let payload = line.bytes(b' ')?.put(store, token).ok()?;
    let mut again = list;
    options::pass(&mut again, store, payload)?;
    Some(Given {
        token,
        options: list,
        payload,
    })
}

// Puts which call was refused and why, and what was built before it.
fn write_stopped(page: &mut Page, room: &[u8], stopped: Stopped) {
    write_refused(page, stopped.why);
    page.number(b" ", stopped.call as u64);
    write_built(page, room, stopped.built);
}

// Puts what was built, and whether every other byte of the room is as it was.
fn write_built(page: &mut Page, room: &[u8], length: usize) {
    page.hex(b" ", part(room, 0, length));
    write_kept(page, are_before(room, length));
}
