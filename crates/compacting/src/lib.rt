// Compaction of a packet: its live bytes moved to the front of the edit store, so that dead bytes are given back.
#![tactic(auto)]

ghost use Rattle.std.specs.Prelude.{◌≡◌, ◌<◌, ◌≤◌, length};
ghost use Rattle.refusal.specs.Answer.{written};
ghost use Rattle.placing.specs.Put.{Puts};
ghost use Rattle.packet.specs.Limits.{max_options, max_store};
ghost use Rattle.packet.specs.Packet.{stores, held};
ghost use Rattle.compacting.specs.Compacting.{live_bytes, live_length, relocated, compacting, Compacts};

use judging::{Lengths, judge};
use packet::limits::MAX_OPTIONS;
use packet::{Home, OptionRecord, Packet, Range, Stores};
use placing::put_bytes;
use refusal::Refusal;

// What compaction gives: the new end of what is taken in the edit store, and the packet, rewritten.
#[derive(Clone, Copy)]
pub struct Compacted {
    pub end: usize,
    pub packet: Packet,
}

// Moves the live bytes of the packet to the front of the edit store by way of the second buffer, which then begins with them
// too. All is judged before a byte is copied, so that a refused packet changes nothing.
pub fn compact(
    packet: Packet,
    datagram: &[u8],
    edits: &mut [u8],
    second: &mut [u8],
) -> Result<Compacted, Refusal>
    ensures { Compacts packet (stores datagram.now edits.old) second.old result edits.new second.new }
{
    let lengths = Lengths {
        datagram: datagram.len(),
        edits: edits.len(),
    };
    let end = end_of(packet, lengths, second.len())?;
    gather(second, packet, Stores { datagram, edits });
    put_bytes(edits, 0, &second[..end]);
    Ok(Compacted {
        end,
        packet: relocated(packet),
    })
}

// The new end, over stores of the given lengths and a second buffer of this length.
fn end_of(packet: Packet, lengths: Lengths, room: usize) -> Result<usize, Refusal>
    ensures { written result ≡ compacting lengths room packet }
{
    if lengths.too_long() {
        return Err(Refusal::TooLong);
    }
    judge(packet, lengths)?;
    let end = live_length(packet);
    if lengths.edits < end {
        return Err(Refusal::NoRoom);
    }
    if room < end {
        return Err(Refusal::NoRoom);
    }
    Ok(end)
}

// The sum of the lengths of token, values and payload.
fn live_length(packet: Packet) -> usize
    requires { packet.count ≤ max_options }
    ensures { result ≡ live_length packet }
{
    let count = packet.count;
    let options = packet.options;
    let mut sum: usize = 0;
    for i in 0..count {
        sum = sum + length_of(options[i]);
    }
    packet.token.len as usize + (sum + packet.payload.len as usize)
}

// The length of a record's value.
fn length_of(option: OptionRecord) -> usize
    ensures { (result ≡ option.len) × (result < 4294967296) }
{
    option.len as usize
}

// Copies the live bytes of the packet to the front of a buffer: token, values and payload, from whichever store each lies in.
fn gather<'a>(second: &mut [u8], packet: Packet, stores: Stores<'a>) -> usize
    requires { packet.count ≤ max_options }
    ensures { Puts second.old 0 (live_bytes (held stores.entry) packet) result second.new }
{
    let token = packet.token;
    let payload = packet.payload;
    let count = packet.count;
    let options = packet.options;
    let mut next = put_bytes(second, 0, token.part(stores));
    for i in 0..count {
        let record = options[i];
        next = put_bytes(second, next, record.value(stores));
    }
    put_bytes(second, next, payload.part(stores))
}

// The packet with its ranges rewritten to where the live bytes stand, end to end from 0.
fn relocated(packet: Packet) -> Packet
    requires { (packet.count ≤ max_options) × (live_length packet ≤ max_store) }
    ensures { result ≡ relocated packet }
{
    let header = packet.header;
    let token = packet.token;
    let payload = packet.payload;
    let count = packet.count;
    let options = packet.options;
    let mut records = [OptionRecord::EMPTY; MAX_OPTIONS];
    let mut next = token.len;
    for i in 0..count {
        let record = options[i];
        records[i] = OptionRecord {
            number: record.number,
            home: Home::Edits,
            spare: 0,
            start: next,
            len: record.len,
        };
        next = next + record.len;
    }
    Packet {
        header,
        token: Range {
            home: Home::Edits,
            start: 0,
            len: token.len,
        },
        count,
        options: records,
        payload: Range {
            home: Home::Edits,
            start: next,
            len: payload.len,
        },
    }
}
