// Writing a packet to bytes, plain and strict (Packet::to_bytes of packet.rs).
#![tactic(auto)]

ghost use Rattle.std.specs.Prelude.{◌≡◌, Bool, false, ℕ, ◌≤◌, length};
ghost use Rattle.refusal.specs.Answer.{given, written};
ghost use Rattle.placing.specs.Put.{Put};
ghost use Rattle.packet.specs.Packet.{held};
ghost use Rattle.judging.specs.Judge.{lengths_of, bad_packet};
ghost use Rattle.measuring.specs.declared.Limit.{Limit};
ghost use Rattle.writing.specs.Writing.{bytes_written, ToBytes};

use judging::Lengths;
use laying::{put_header, put_option, put_payload};
pub use measuring::Limit;
use measuring::{measured, sent_payload};
use packet::{Packet, Stores};
use refusal::Refusal;

// Writes the bytes of the packet to the start of the output, as the Rust does.
pub fn to_bytes<'a>(packet: Packet, stores: Stores<'a>, out: &mut [u8]) -> Result<usize, Refusal>
    ensures { ToBytes Bool.false Limit.Default packet (held stores.entry) out.old result out.new }
{
    to_bytes_in(false, Limit::Default, packet, stores, out)
}

// The same, with a limit in the place of Packet::MAX_SIZE.
pub fn to_bytes_with_limit<'a>(
    packet: Packet,
    limit: usize,
    stores: Stores<'a>,
    out: &mut [u8],
) -> Result<usize, Refusal>
    ensures { ToBytes Bool.false (Limit.Given limit) packet (held stores.entry) out.old result out.new }
{
    to_bytes_in(false, Limit::Given(limit), packet, stores, out)
}

// The same, without a limit.
pub fn to_bytes_unlimited<'a>(
    packet: Packet,
    stores: Stores<'a>,
    out: &mut [u8],
) -> Result<usize, Refusal>
    ensures { ToBytes Bool.false Limit.Unlimited packet (held stores.entry) out.old result out.new }
{
    to_bytes_in(false, Limit::Unlimited, packet, stores, out)
}

// Writes the bytes of a well-formed message, and refuses every other.
pub fn to_bytes_strict<'a>(
    packet: Packet,
    stores: Stores<'a>,
    out: &mut [u8],
) -> Result<usize, Refusal>
    ensures { ToBytes Bool.true Limit.Default packet (held stores.entry) out.old result out.new }
{
    to_bytes_in(true, Limit::Default, packet, stores, out)
}

// The same, with a limit in the place of Packet::MAX_SIZE.
pub fn to_bytes_with_limit_strict<'a>(
    packet: Packet,
    limit: usize,
    stores: Stores<'a>,
    out: &mut [u8],
) -> Result<usize, Refusal>
    ensures { ToBytes Bool.true (Limit.Given limit) packet (held stores.entry) out.old result out.new }
{
    to_bytes_in(true, Limit::Given(limit), packet, stores, out)
}

// The same, without a limit.
pub fn to_bytes_unlimited_strict<'a>(
    packet: Packet,
    stores: Stores<'a>,
    out: &mut [u8],
) -> Result<usize, Refusal>
    ensures { ToBytes Bool.true Limit.Unlimited packet (held stores.entry) out.old result out.new }
{
    to_bytes_in(true, Limit::Unlimited, packet, stores, out)
}

// All six: plain or strict, under a limit. All is measured before a byte is put, so that a refused packet changes nothing.
pub fn to_bytes_in<'a>(
    strict: bool,
    limit: Limit,
    packet: Packet,
    stores: Stores<'a>,
    out: &mut [u8],
) -> Result<usize, Refusal>
    ensures { ToBytes strict limit packet (held stores.entry) out.old result out.new }
{
    let lengths = Lengths::of(stores);
    measured(strict, limit, packet, lengths, out.len())?;
    Ok(put_message(out, strict, packet, stores))
}

// Puts the message at the start of the output: header and token, options, payload. The options are taken out and walked in this
// function, since one of their own would copy them again, and taken out before a byte is put: the compiler can't tell the output
// from the packet, and would first copy the packet. One with no option is spared even that copy.
fn put_message<'a>(out: &mut [u8], strict: bool, packet: Packet, stores: Stores<'a>) -> usize
    requires { (bad_packet (lengths_of (held stores)) packet ≡ false) × (length (bytes_written strict (held stores) packet) ≤ length out.old) }
    ensures { Put out.old 0 (bytes_written strict (held stores.entry) packet) result out.new }
{
    let header = packet.header;
    let code = header.code;
    let token = packet.token;
    let payload = sent_payload(strict, code, packet.payload);
    let count = packet.count;
    let token_bytes = token.part(stores);
    let payload_bytes = payload.part(stores);
    if count == 0 {
        let first = put_header(out, header, token_bytes).unwrap();
        return first + put_payload(out, first, payload_bytes).unwrap();
    }
    let options = packet.options;
    let mut next = put_header(out, header, token_bytes).unwrap();
    let mut before: u16 = 0;
    for i in 0..count {
        let record = options[i];
        let value = record.value(stores);
        next = next + put_option(out, next, before, record.number, value).unwrap();
        before = record.number;
    }
    next + put_payload(out, next, payload_bytes).unwrap()
}
