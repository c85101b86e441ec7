// Edits of a packet, by value: token, payload and options (packet.rs). Each judges the order of the records first, and then
// replaces those between two places.
#![tactic(auto)]

ghost use Rattle.std.specs.Prelude.{◌≡◌};
ghost use Rattle.refusal.specs.Answer.{given};
ghost use Rattle.packet.specs.Packet.{chosen, records_of};
ghost use Rattle.splicing.specs.Edited.{Edits};
ghost use Rattle.splicing.specs.Splice.{packet_with, homed};
ghost use Rattle.editing.specs.Edit.{orderly, token_set, payload_set, added, option_set, cleared, cleared_all};

use judging::span_of;
use packet::limits::{MAX_OPTIONS, MAX_TOKEN};
use packet::{Home, OptionRecord, Packet, Range};
use refusal::Refusal;
use splicing::spliced;

// Sets the token.
pub fn set_token(packet: Packet, range: Range) -> Result<Packet, Refusal>
    ensures { Edits packet (token_set packet range) result }
{
    if MAX_TOKEN < range.len {
        return Err(Refusal::BadRecord);
    }
    let payload = packet.payload;
    with_ranges(packet, range, payload)
}

// Sets the payload.
pub fn set_payload(packet: Packet, range: Range) -> Result<Packet, Refusal>
    ensures { Edits packet (payload_set packet range) result }
{
    let token = packet.token;
    with_ranges(packet, token, range)
}

// Replaces the options of a number by those of ranges, in their order. The ranges are numbers in threes: a home, 0 for the
// datagram or 1 for the edit store, a start and a length; numbers left over at the end name none.
pub fn set_option(packet: Packet, number: u16, ranges: &[u32]) -> Result<Packet, Refusal>
    ensures { Edits packet (homed ranges.now (option_set packet number)) result }
{
    let span = span_of(packet, number)?;
    spliced(packet, span.low, span.high, number, ranges)
}

// Adds an option after the last of the same or a lower number.
pub fn add_option(packet: Packet, number: u16, range: Range) -> Result<Packet, Refusal>
    ensures { Edits packet (added packet number range) result }
{
    let span = span_of(packet, number)?;
    let home = range.home;
    let numbers = [number_of(home), range.start, range.len];
    spliced(packet, span.high, span.high, number, &numbers)
}

// Removes the options of a number: no range replaces them.
pub fn clear_option(packet: Packet, number: u16) -> Result<Packet, Refusal>
    ensures { Edits packet (cleared packet number) result }
{
    set_option(packet, number, &[])
}

// Removes every option.
pub fn clear_all_options(mut packet: Packet) -> Result<Packet, Refusal>
    ensures { Edits packet (cleared_all packet) result }
{
    // Any number serves: only the order counts.
    span_of(packet, 0)?;
    packet.count = 0;
    packet.options = [OptionRecord::EMPTY; MAX_OPTIONS];
    Ok(packet)
}

// The packet with this token and this payload. The records stay, and the places past them become empty.
fn with_ranges(mut packet: Packet, token: Range, payload: Range) -> Result<Packet, Refusal>
    ensures { Edits packet (orderly packet (given (packet_with packet token (records_of packet) payload))) result }
{
    span_of(packet, 0)?;
    packet.token = token;
    packet.payload = payload;
    spliced(packet, 0, 0, 0, &[])
}

// The number that stands for a home.
fn number_of(home: Home) -> u32
    ensures { result ≡ chosen home 0 1 }
{
    match home {
        Home::Datagram => 0,
        Home::Edits => 1,
    }
}
