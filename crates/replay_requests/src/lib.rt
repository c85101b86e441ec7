// Requests on the duplicate rule: one message heard over a table, and a whole trace replayed.
#![tactic(auto)]

mod heard;
mod replayed;

use output::Page;
use words::Line;

#[derive(Clone, Copy)]
pub enum Request {
    Hear,
    Replay,
}

// Which of these requests a name is.
pub fn named(name: &[u8]) -> Option<Request> {
    match name {
        b"hear" => Some(Request::Hear),
        b"replay" => Some(Request::Replay),
        _ => None,
    }
}

// Answers a request. A table or a trace goes to the store, and the listing to as much of the room as is named.
pub fn answer(
    request: Request,
    line: &mut Line,
    store: &mut [u8],
    room: &mut [u8],
    page: &mut Page,
) -> Option<()> {
    match request {
        Request::Hear => heard::answer(line, store, page),
        Request::Replay => replayed::answer(line, store, room, page),
    }
}
