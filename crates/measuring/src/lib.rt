// What a packet answers when it is written, plain and strict, before a byte is: the refusals, or how many bytes it takes.
#![tactic(auto)]

ghost use Rattle.std.specs.Prelude.{◌≡◌, ◌+◌, ◌*◌, ◌≤◌};
ghost use Rattle.refusal.specs.Answer.{written, outcome};
ghost use Rattle.packet.specs.Limits.{max_options, max_value};
ghost use Rattle.packet.specs.Packet.{records_of};
ghost use Rattle.judging.specs.Judge.{options_size};
ghost use Rattle.measuring.specs.Measuring.{sent_payload, marker_size, counted, written_size, over, empty_carries, strictly, limited, size_fitted, measured};

use class::MessageClass;
use judging::{Lengths, judge};
use packet::{Packet, Range};
use refusal::Refusal;

// How large a message may be.
#[derive(Clone, Copy)]
pub enum Limit {
    // Packet::MAX_SIZE.
    Default,
    Given(usize),
    Unlimited,
}

// The answer of writing the packet over stores of the given lengths into an output with this much room.
pub fn measured(
    strict: bool,
    limit: Limit,
    packet: Packet,
    lengths: Lengths,
    room: usize,
) -> Result<usize, Refusal>
    ensures { written result ≡ measured strict limit room lengths packet }
{
    if lengths.too_long() {
        return Err(Refusal::TooLong);
    }
    let options = judge(packet, lengths)?;
    judged_strictly(strict, packet)?;
    sized(strict, limit, packet, options, room)
}

// What strict mode asks besides: version 1, a token of at most 8 bytes, and nothing but a header in an empty message.
fn judged_strictly(strict: bool, packet: Packet) -> Result<(), Refusal>
    ensures { outcome result ≡ strictly strict packet }
{
    if !strict {
        return Ok(());
    }
    if packet.header.version != 1 {
        return Err(Refusal::WrongVersion);
    }
    if 8 < packet.token.len {
        return Err(Refusal::InvalidTokenLength);
    }
    if empty_carries(packet) {
        return Err(Refusal::EmptyCarries);
    }
    Ok(())
}

// An empty message is nothing but its header.
fn empty_carries(packet: Packet) -> bool
    ensures { result ≡ empty_carries packet }
{
    let header = packet.header;
    let code = header.code;
    code.to_byte() == 0 && (0 < packet.token.len || 0 < packet.count || 0 < packet.payload.len)
}

// The refusals of the limit and of the room, or how many bytes are to be written.
fn sized(
    strict: bool,
    limit: Limit,
    packet: Packet,
    options: usize,
    room: usize,
) -> Result<usize, Refusal>
    requires { (options ≡ options_size 0 (records_of packet)) × (options ≤ max_options * (max_value + 5)) }
    ensures { written result ≡ limited limit (counted strict packet) (size_fitted room (written_size strict packet)) }
{
    let header = packet.header;
    let code = header.code;
    let payload = packet.payload;
    let sent = sent_payload(strict, code, payload);
    let kept = sent.len as usize;
    let rest = 4 + packet.token.len as usize + options + marker_size(kept);
    let size = rest + payload.len as usize;
    if limit.exceeded_by(size) {
        return Err(Refusal::InvalidPacketLength);
    }
    let length = rest + kept;
    if room < length {
        return Err(Refusal::NoRoom);
    }
    Ok(length)
}

// The payload that is sent: plain drops that of class `Empty`.
pub fn sent_payload(strict: bool, code: MessageClass, payload: Range) -> Range
    ensures { result ≡ sent_payload strict code payload }
{
    if strict {
        return payload;
    }
    match code {
        MessageClass::Empty => Range::NOWHERE,
        _ => payload,
    }
}

// How many bytes the marker before a payload of this length takes.
fn marker_size(payload: usize) -> usize
    ensures { result ≡ marker_size payload }
{
    if 0 < payload { 1 } else { 0 }
}

impl Limit {
    // Whether a message of this size is too large.
    fn exceeded_by(self, size: usize) -> bool
        ensures { result ≡ over self size }
    {
        match self {
            Limit::Default => Packet::MAX_SIZE < size,
            Limit::Given(limit) => limit < size,
            Limit::Unlimited => false,
        }
    }
}
