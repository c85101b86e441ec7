// What is done with a trace of any length: it is judged, or its messages are put to the rule. A message with its time has at most 1,401
// bytes, so a window always holds the next one whole.
use crate::shown;
use hearing::{TABLE_SIZE, Verdict, hear};
use refusal::Refusal;
use reports::Page;
use stream::Form;
use tracing::{Arrived, arrival_at, strict_timed_at};
use walks::{Piece, Work};

// How many bytes a message has at most with its time, which is in the old form.
const MOST: usize = 1401;

// Whether the window may hold only a part of the next message.
fn is_cut(rest: &[u8], ended: bool) -> bool {
    !ended && rest.len() < MOST
}

// Judges each message of a trace of a form.
#[derive(Clone, Copy)]
pub struct Judge(pub Form);

impl Work for Judge {
    // A message that is none ends the pass; one whose datagram is bad decides only where the rest is a trace.
    fn take(&mut self, rest: &[u8], ended: bool, _page: &mut Page) -> Piece {
        if is_cut(rest, ended) {
            return Piece::Cut;
        }
        match arrival_at(self.0, rest, 0) {
            Err(why) => Piece::Refused(why),
            Ok(arrived) => {
                let judged = strict_timed_at(self.0, rest, 0).map(|_| ());
                Piece::Message(arrived.next, judged)
            }
        }
    }

    fn is_said_first(&self) -> bool {
        true
    }
}

// How many messages the rule said what of.
#[derive(Clone, Copy)]
pub struct Tally {
    pub fresh: u64,
    pub duplicates: u64,
    pub passed: u64,
}

// Puts each message of a trace of a form to the rule, and shows it.
#[derive(Drop)]
pub struct Replay {
    form: Form,
    table: [u8; TABLE_SIZE],
    // The time of the message before, 0 for the first.
    before: u32,
    tally: Tally,
}

impl Replay {
    // From a table whose places are all unused.
    pub fn new(form: Form) -> Replay {
        Replay {
            form,
            table: [0; TABLE_SIZE],
            before: 0,
            tally: Tally {
                fresh: 0,
                duplicates: 0,
                passed: 0,
            },
        }
    }

    pub fn tally(&self) -> Tally {
        self.tally
    }

    // One more of a verdict.
    fn count(&mut self, verdict: Verdict) {
        let tally = &mut self.tally;
        let count = match verdict {
            Verdict::New => &mut tally.fresh,
            Verdict::Duplicate => &mut tally.duplicates,
            Verdict::Passed => &mut tally.passed,
        };
        *count = count.wrapping_add(1);
    }

    // Puts a message to the rule, and a line on it to the page. A refused one ends the pass.
    fn hear(&mut self, rest: &[u8], page: &mut Page) -> Result<Arrived, Refusal> {
        let arrived = arrival_at(self.form, rest, 0)?;
        let Arrived {
            time,
            kind,
            peer,
            id,
            next: _,
        } = arrived;
        let verdict = hear(&mut self.table, self.before, time, kind, peer, id)?;
        self.before = time;
        self.count(verdict);
        shown::put_message(page, arrived, verdict);
        Ok(arrived)
    }
}

impl Work for Replay {
    fn take(&mut self, rest: &[u8], ended: bool, page: &mut Page) -> Piece {
        if is_cut(rest, ended) {
            return Piece::Cut;
        }
        match self.hear(rest, page) {
            Ok(arrived) => Piece::Message(arrived.next, Ok(())),
            Err(why) => Piece::Refused(why),
        }
    }

    fn is_said_first(&self) -> bool {
        true
    }
}
