// Reading a datagram step by step, option after option, with no array of records and no packet.
#![tactic(auto)]

ghost use Rattle.std.specs.Prelude.{◌≡◌};
ghost use Rattle.refusal.specs.Answer.{outcome};
ghost use Rattle.cursor.specs.Cursor.{Starts, StepsTo, Judges};
ghost use Rattle.cursor.specs.Walk.{accepting_from};

use header::HeaderRaw;
use option_reading::{Found, place_at};
use packet::limits::{MAX_OPTIONS, MAX_STORE};
use packet::{Home, Range};
use reading::{longest_value, marker_alone, opening};
use refusal::Refusal;

// A walk over a datagram that keeps nothing of what it has passed: the mode, the number of the option before, the position
// where the next one may stand, and how many more there may be. `start` makes the first, and a step each next one. The fields
// are wide: a cursor packed into a word would be taken apart by shifts and masks at each step.
#[derive(Clone, Copy)]
pub struct Cursor {
    pub strict: bool,
    pub number: u16,
    pub at: usize,
    pub left: usize,
}

// A good header, and the cursor before the first option.
#[derive(Clone, Copy)]
pub struct Start {
    pub raw: HeaderRaw,
    pub cursor: Cursor,
}

// What stands at a cursor: an option, with the cursor after it; or the payload, and the walk has ended well.
#[derive(Clone, Copy)]
pub enum Step {
    Option {
        number: u16,
        value: Range,
        next: Cursor,
    },
    Payload(Range),
}

impl Cursor {
    // Judges a datagram up to its options.
    pub fn start(strict: bool, datagram: &[u8]) -> Result<Start, Refusal>
        ensures { Starts strict datagram.now result }
    {
        let raw = opening(strict, datagram)?;
        let cursor = Cursor {
            strict,
            number: 0,
            at: 4 + raw.token_length() as usize,
            left: MAX_OPTIONS,
        };
        Ok(Start { raw, cursor })
    }

    // What stands at the cursor.
    pub fn step(self, datagram: &[u8]) -> Result<Step, Refusal>
        ensures { StepsTo datagram.now self result }
    {
        let at = self.at;
        if MAX_STORE < datagram.len() {
            return Err(Refusal::TooLong);
        }
        if datagram.len() < at {
            return Err(Refusal::InvalidOptionLength);
        }
        match place_at(longest_value(self.strict), datagram, self.number, at)? {
            Found::End { marked, payload } => {
                if marker_alone(self.strict, marked, payload, datagram.len()) {
                    return Err(Refusal::MarkerAlone);
                }
                Ok(Step::Payload(Range {
                    home: Home::Datagram,
                    start: payload as u32,
                    len: (datagram.len() - payload) as u32,
                }))
            }
            Found::Option(r) => {
                if self.left == 0 {
                    return Err(Refusal::TooManyOptions);
                }
                // The record isn't handed on: its fields were stored one by one, and a load of the whole waits for them.
                let value = Range {
                    home: Home::Datagram,
                    start: r.start,
                    len: r.len,
                };
                let next = Cursor {
                    strict: self.strict,
                    number: r.number,
                    at: r.start as usize + r.len as usize,
                    left: self.left - 1,
                };
                Ok(Step::Option {
                    number: r.number,
                    value,
                    next,
                })
            }
        }
    }
}

// Whether reading accepts a datagram.
pub fn judge(strict: bool, datagram: &[u8]) -> Result<(), Refusal>
    ensures { Judges strict datagram.now result }
{
    let start = Cursor::start(strict, datagram)?;
    judge_from(start.cursor, datagram)
}

// Whether the steps from a cursor end well.
fn judge_from(first: Cursor, datagram: &[u8]) -> Result<(), Refusal>
    ensures { outcome result ≡ accepting_from datagram.now first }
{
    let mut cursor = first;
    while let Step::Option { next, .. } = cursor.step(datagram)? {
        cursor = next;
    }
    Ok(())
}
