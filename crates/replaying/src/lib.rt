// A trace replayed: its messages, one after the other, through the duplicate rule over a lent table, with a listing of what each is.
#![tactic(auto)]

ghost use Rattle.std.specs.Prelude.{length};
ghost use Rattle.refusal.specs.Answer.{outcome};
ghost use Rattle.hearing.specs.Calls.{Called, Ran};
ghost use Rattle.tracing.specs.Arrivals.{coming_of};
ghost use Rattle.replaying.specs.Replaying.{Replays};
ghost use Rattle.replaying.specs.Turns.{Follows, calls};

use hearing::{Verdict, clear, hear};
use refusal::Refusal;
use stream::Form;
use tracing::{Arrived, arrival_at, form_of, judge};

// How a replay ended, and how many messages are listed.
#[derive(Clone, Copy)]
pub struct Replayed {
    pub outcome: Result<(), Refusal>,
    pub count: usize,
}

// Replays a trace. The listing gets a byte for each message: 1 for a new one, 2 for a duplicate, 3 for one that passes. A message that
// is refused ends the replay, and what the messages before it left stands; up to the first of them nothing changes.
pub fn replay(trace: &[u8], table: &mut [u8], listing: &mut [u8]) -> Replayed
    ensures { Replays trace.now table.old listing.old result table.new listing.new }
{
    if let Err(e) = judge(trace) {
        return Replayed {
            outcome: Err(e),
            count: 0,
        };
    }
    if let Err(e) = clear(table) {
        return Replayed {
            outcome: Err(e),
            count: 0,
        };
    }
    hear_all(form_of(trace), trace, table, listing)
}

// The messages of a trace that was judged, in turn.
fn hear_all(form: Form, trace: &[u8], table: &mut [u8], listing: &mut [u8]) -> Replayed
    requires { Follows form trace.now }
    ensures { Ran (calls form trace.now (length listing.old) table.old) listing.old (outcome result.outcome) result.count table.new listing.new }
{
    let mut before: u32 = 0;
    let mut at = 0;
    let mut count = 0;
    while at < trace.len() {
        let m = match arrival_at(form, trace, at) {
            Ok(m) => m,
            Err(e) => {
                return Replayed {
                    outcome: Err(e),
                    count,
                };
            }
        };
        match hear_listed(m, before, listing.len() - count, table) {
            Err(e) => {
                return Replayed {
                    outcome: Err(e),
                    count,
                };
            }
            Ok(v) => {
                listing[count] = v.letter();
                before = m.time;
                at = m.next;
                count += 1;
            }
        }
    }
    Replayed {
        outcome: Ok(()),
        count,
    }
}

// One message, where the listing has places for so many more. Its time is judged before the listing, and the listing before the
// table.
fn hear_listed(m: Arrived, before: u32, room: usize, table: &mut [u8]) -> Result<Verdict, Refusal>
    ensures { Called room before (coming_of m).arrival table.old result table.new }
{
    let time = m.time;
    if room == 0 {
        if time < before {
            return Err(Refusal::ClockBack);
        }
        return Err(Refusal::NoRoom);
    }
    let kind = m.kind;
    let peer = m.peer;
    hear(table, before, time, kind, peer, m.id)
}
