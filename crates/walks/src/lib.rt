// A pass over an input of any length, piece by piece through one window. A piece that waits for its rest goes to the front of the
// window, and what follows is read behind it, so that each is whole when its turn comes; nothing else bounds the input.
#![tactic(auto)]

use moving::move_to_front;
use refusal::Refusal;
use reports::{Failure, Numbered, Page, progress};
use reread::{Filled, Input};
use std::fmt;
use std::fmt::{Display, Formatter};

// Why an input is refused, and which message it is refused for, from 1.
#[derive(Clone, Copy)]
pub struct Rejection {
    pub why: Refusal,
    pub message: u64,
}

// refused 19 BadFreeze, message 2
impl Display for Rejection {
    fn fmt<W: fmt::Write>(&self, f: &mut Formatter<W>) -> fmt::Result {
        let named = Numbered(self.why);
        let message = self.message;
        write!(f, "{named}, message {message}")
    }
}

// What comes next in an input.
#[derive(Clone, Copy)]
pub enum Piece {
    // The window may hold only a part of it.
    Cut,
    // So many bytes that are no message.
    Skipped(usize),
    // A message of so many bytes, and whether its datagram is good: one that is bad decides only where the rest is good.
    Message(usize, Result<(), Refusal>),
    // No message. The pass ends here.
    Refused(Refusal),
}

// What is done with an input.
pub trait Work {
    // What stands where the rest of the window begins, and whatever is to be put on the page of it. The rest has a byte at least, and
    // all of the input that is left where that ends with it.
    fn take(&mut self, rest: &[u8], ended: bool, page: &mut Page) -> Piece;

    // What is said of so many windows of 64 KiB.
    fn said(&self) -> &'static str {
        "passed over"
    }

    // Whether it is said before the pieces of a window are taken, and not after them.
    fn is_said_first(&self) -> bool {
        false
    }
}

// How far a pass has come.
#[derive(Clone, Copy)]
pub struct Walk {
    // How many messages were passed.
    pub messages: u64,
    pub rejected: Option<Rejection>,
    // Where the next piece stands in the window, and whether the pass goes on.
    at: usize,
    more: bool,
}

impl Walk {
    fn start() -> Walk {
        Walk {
            messages: 0,
            rejected: None,
            at: 0,
            more: true,
        }
    }

    // So many bytes on.
    fn on(self, length: usize) -> Walk {
        Walk {
            at: self.at.saturating_add(length),
            ..self
        }
    }

    // The pass ends at the next message, which is none.
    fn refusing(self, why: Refusal) -> Walk {
        let message = self.messages.wrapping_add(1);
        Walk {
            rejected: Some(Rejection { why, message }),
            more: false,
            ..self
        }
    }

    // The next message is passed; its datagram decides, if none before it has.
    fn passing(self, judged: Result<(), Refusal>) -> Walk {
        let message = self.messages.wrapping_add(1);
        let rejected = match judged {
            Ok(()) => None,
            Err(why) => Some(Rejection { why, message }),
        };
        Walk {
            messages: message,
            rejected: self.rejected.or(rejected),
            ..self
        }
    }
}

// Passes over the whole input from its beginning. What is made of it goes to the page, which is written as it fills, and at the end.
pub fn pass<W: Work>(
    rt: &HostRuntime,
    input: &Input,
    work: &mut W,
    window: &mut [u8],
    page: &mut Page,
) -> Result<Walk, Failure> {
    input.rewind()?;
    let mut walk = Walk::start();
    let mut waiting = 0;
    for before in 0..u64::MAX {
        let windows = before + 1;
        let filled = input
            .fill(window, waiting)
            .map_err(|failure| failure.in_window(work.said(), windows))?;
        walk = take_window(rt, work, walk, window, filled, page, windows)?;
        if filled.ended || !walk.more {
            break;
        }
        waiting = move_to_front(window, walk.at, filled.count);
    }
    page.finish()?;
    Ok(walk)
}

// Takes the pieces of a window, and says how far the pass is: before them, or after them, and then where that fails too.
fn take_window<W: Work>(
    rt: &HostRuntime,
    work: &mut W,
    walk: Walk,
    window: &[u8],
    filled: Filled,
    page: &mut Page,
    windows: u64,
) -> Result<Walk, Failure> {
    let start = Walk { at: 0, ..walk };
    let all = &window[..filled.count.min(window.len())];
    let said = work.said();
    if work.is_said_first() {
        progress(rt, said, windows);
        return take_all(work, start, all, filled.ended, page);
    }
    let taken = take_all(work, start, all, filled.ended, page);
    let walk = taken.map_err(|failure| failure.in_window(said, windows))?;
    progress(rt, said, windows);
    Ok(walk)
}

// Takes the pieces that are whole in the window, of which each has a byte at least.
fn take_all<W: Work>(
    work: &mut W,
    start: Walk,
    window: &[u8],
    ended: bool,
    page: &mut Page,
) -> Result<Walk, Failure> {
    let mut walk = start;
    for _ in 0..window.len() {
        if !walk.more || window.len() <= walk.at {
            break;
        }
        walk = match work.take(&window[walk.at..], ended, page) {
            Piece::Cut => break,
            Piece::Skipped(length) => walk.on(length),
            Piece::Message(length, judged) => walk.on(length).passing(judged),
            Piece::Refused(why) => walk.refusing(why),
        };
        page.spill()?;
    }
    Ok(walk)
}
