// Requests on whole packets: reading, writing and the check by the register.
#![tactic(auto)]

mod checking;
mod limits;
mod reading_packets;
mod writing_packets;

pub use checking::write_check;
pub use limits::read_limit;
use output::Page;
use words::Line;
pub use writing_packets::write;

#[derive(Clone, Copy)]
pub enum Request {
    Read { strict: bool },
    Write { strict: bool },
    Register,
}

// Which of these requests a name is.
pub fn named(name: &[u8]) -> Option<Request> {
    match name {
        b"read" => Some(Request::Read { strict: false }),
        b"read-strict" => Some(Request::Read { strict: true }),
        b"write" => Some(Request::Write { strict: false }),
        b"write-strict" => Some(Request::Write { strict: true }),
        b"register" => Some(Request::Register),
        _ => None,
    }
}

// Answers a request. A datagram or a packet goes to the store, and what is written to the room.
pub fn answer(
    request: Request,
    line: &mut Line,
    store: &mut [u8],
    room: &mut [u8],
    page: &mut Page,
) -> Option<()> {
    match request {
        Request::Read { strict } => reading_packets::read(strict, line, store, page),
        Request::Write { strict } => writing_packets::answer(strict, line, store, room, page),
        Request::Register => checking::answer(line, store, page),
    }
}
