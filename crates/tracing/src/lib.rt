// Traces: a freeze stream of either form with a time before each message. A trace is judged as a whole, and read message by message
// where it stands.
#![tactic(auto)]

ghost use Rattle.std.specs.Prelude.{◌≡◌, ◌+◌, ◌<◌, ◌≤◌, length};
ghost use Rattle.ground.specs.Part.{part};
ghost use Rattle.refusal.specs.Answer.{refused, onward, outcome, beside};
ghost use Rattle.refusal.specs.Number.{number_of};
ghost use Rattle.stream.specs.Answers.{step_read};
ghost use Rattle.tracing.specs.TimedMessages.{form_of, is_time, timed_at, traced_from};
ghost use Rattle.tracing.specs.Judging.{strictly, strict_timed_at, Judges};
ghost use Rattle.tracing.specs.Answers.{timed_read, timed_extent, whether, FourAt};
ghost use Rattle.tracing.specs.Arrivals.{head_in, no_arrival, arrival_at, arrived_in};

use header::{HeaderRaw, MessageType};
use refusal::Refusal;
use stream::{Form, Step, byte_at, head_of, message_at};
use thawing::strict_at;

// The form of a trace that is in one of the two: the kind of its first chunk, behind the first time and the first peer, is 2 in the
// old form only.
pub fn form_of(trace: &[u8]) -> Form
    ensures { result ≡ form_of trace.now }
{
    if byte_at(trace, 24) == 2 {
        return Form::Old;
    }
    Form::New
}

// Judges a whole trace and each of its datagrams, and answers how many messages it holds. The first bad datagram decides only where
// the rest of the trace is one.
pub fn judge(trace: &[u8]) -> Result<usize, Refusal>
    ensures { Judges trace.now result }
{
    let form = form_of(trace);
    let mut count = 0;
    let mut at = 0;
    while at < trace.len() {
        match strict_timed_at(form, trace, at) {
            Err(e) => return Err(refused_from(form, trace, at, e)),
            Ok(message) => {
                count += 1;
                at = message.next;
            }
        }
    }
    Ok(count)
}

// Why a trace is refused whose message at a position is, be it for the time, for the message or for its datagram.
fn refused_from(form: Form, trace: &[u8], at: usize, why: Refusal) -> Refusal
    requires { (at < length trace.now) × (strict_timed_at form trace.now at ≡ refused (number_of why)) }
    ensures { onward (traced_from form trace.now at) strictly ≡ refused (number_of result) }
{
    match judge_from(form, trace, at) {
        Err(e) => e,
        Ok(_) => why,
    }
}

// Whether what stands from a position on is a trace of the form, whatever its datagrams are.
fn judge_from(form: Form, trace: &[u8], from: usize) -> Result<(), Refusal>
    ensures { outcome result ≡ whether (traced_from form trace.now from) }
{
    let mut at = from;
    while at < trace.len() {
        at = timed_at(form, trace, at)?.next;
    }
    Ok(())
}

// The message at a position that a time stands before, where its datagram is strict.
pub fn strict_timed_at(form: Form, trace: &[u8], at: usize) -> Result<Step, Refusal>
    ensures { step_read result ≡ strict_timed_at form trace.now at }
{
    if !is_time(trace, at) {
        return Err(Refusal::BadFreeze);
    }
    strict_at(form, trace, at + 5)
}

// A message with its time: how many bytes its datagram has, and the position after it. Its peer stands six bytes after its own
// position.
#[derive(Clone, Copy)]
pub struct TimedStep {
    pub time: u32,
    pub len: usize,
    pub next: usize,
}

// The message at a position, with the time that stands before it.
pub fn timed_at(form: Form, trace: &[u8], at: usize) -> Result<TimedStep, Refusal>
    ensures { timed_read result ≡ timed_extent (timed_at form trace.now at) }
{
    if !is_time(trace, at) {
        return Err(Refusal::BadFreeze);
    }
    let message = message_at(form, trace, at + 5)?;
    Ok(TimedStep {
        time: four_at(trace, at + 1),
        len: message.len,
        next: message.next,
    })
}

// A message as the duplicate rule asks for it: when it came, its type, its peer and its id; and the position after it.
#[derive(Clone, Copy)]
pub struct Arrived {
    pub time: u32,
    pub kind: MessageType,
    pub peer: [u8; 18],
    pub id: u16,
    pub next: usize,
}

// The message at a position. Its type and its id are read where they stand, at the front of its first chunk.
pub fn arrival_at(form: Form, trace: &[u8], at: usize) -> Result<Arrived, Refusal>
    ensures { arrived_in result ≡ beside no_arrival (arrival_at form trace.now at) }
{
    let timed = timed_at(form, trace, at)?;
    let raw = header_at(trace, at + 24 + head_of(form));
    let kind = MessageType::from_number(raw.ver_type_tkl / 16);
    let peer = peer_at(trace, at + 6);
    Ok(Arrived {
        time: timed.time,
        kind,
        peer,
        id: raw.message_id,
        next: timed.next,
    })
}

// The header at a position.
fn header_at(trace: &[u8], at: usize) -> HeaderRaw
    requires { at + 4 ≤ length trace.now }
    ensures { result ≡ head_in (part trace.now at 4) }
{
    let end = at + 4;
    match HeaderRaw::try_from(&trace[at..end]) {
        Ok(raw) => raw,
        Err(_) => HeaderRaw::new(),
    }
}

// The 18 bytes of the peer at a position.
fn peer_at(trace: &[u8], at: usize) -> [u8; 18]
    requires { at + 18 ≤ length trace.now }
    ensures { result ≡ part trace.now at 18 }
{
    let mut peer = [0u8; 18];
    let end = at + 18;
    peer.copy_from_slice(&trace[at..end]);
    peer
}

// Whether the record of a time stands at a position.
fn is_time(trace: &[u8], at: usize) -> bool
    ensures { result ≡ is_time trace.now at }
{
    if byte_at(trace, at) != 8 {
        return false;
    }
    5 <= trace.len() - at
}

// The number of the four bytes at a position, high byte first.
fn four_at(trace: &[u8], at: usize) -> u32
    requires { at + 4 ≤ length trace.now }
    ensures { FourAt trace.now at result }
{
    let bytes = [trace[at], trace[at + 1], trace[at + 2], trace[at + 3]];
    u32::from_be_bytes(bytes)
}
