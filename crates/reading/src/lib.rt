// Reading a datagram to a packet, plain and strict (Packet::from_bytes of packet.rs).
#![tactic(auto)]

ghost use Rattle.std.specs.Prelude.{◌≡◌, Bool, not, eqb, ltb, ◌-◌, ◌≤◌};
ghost use Rattle.ground.specs.Choice.{both, either};
ghost use Rattle.header.specs.Header.{raw_read, header_of, token_of};
ghost use Rattle.reading.specs.Headed.{good_header, headed};
ghost use Rattle.packet.specs.Packet.{in_datagram};
ghost use Rattle.reading.specs.Reading.{FromBytes, longest};

use header::{Header, HeaderRaw};
use option_reading::{Found, place_at};
use packet::limits::{MAX_OPTIONS, MAX_PLAIN_VALUE, MAX_STORE, MAX_VALUE};
use packet::{Home, OptionRecord, Packet, Range};
use refusal::Refusal;

// Decodes a datagram, as the Rust does.
pub fn from_bytes(buf: &[u8]) -> Result<Packet, Refusal>
    ensures { FromBytes Bool.false buf.now result }
{
    from_bytes_in(false, buf)
}

// Decodes a datagram that is the layout of a well-formed message, and refuses every other.
pub fn from_bytes_strict(buf: &[u8]) -> Result<Packet, Refusal>
    ensures { FromBytes Bool.true buf.now result }
{
    from_bytes_in(true, buf)
}

// Either of them, with the mode as an argument. The packet is made here alone: a function that hands the answer on
// copies it.
pub fn from_bytes_in(strict: bool, buf: &[u8]) -> Result<Packet, Refusal>
    ensures { FromBytes strict buf.now result }
{
    let raw = opening(strict, buf)?;
    let token_length = raw.token_length();
    let most = longest_value(strict);
    let mut records = [OptionRecord::EMPTY; MAX_OPTIONS];
    let mut count = 0;
    let mut number: u16 = 0;
    let mut idx = 4 + token_length as usize;
    loop {
        match place_at(most, buf, number, idx)? {
            Found::End { marked, payload } => {
                if marker_alone(strict, marked, payload, buf.len()) {
                    return Err(Refusal::MarkerAlone);
                }
                return Ok(packet_of(raw, count, records, payload, buf.len()));
            }
            Found::Option(r) => {
                if MAX_OPTIONS <= count {
                    return Err(Refusal::TooManyOptions);
                }
                records[count] = r;
                count = count + 1;
                number = r.number;
                idx = r.start as usize + r.len as usize;
            }
        }
    }
}

// The packet of a header and its records, with a payload from a position to the end; an empty range names the datagram too.
fn packet_of(
    raw: HeaderRaw,
    count: usize,
    options: [OptionRecord; MAX_OPTIONS],
    payload: usize,
    end: usize,
) -> Packet
    requires { (payload ≤ end) × (end ≤ 70000) }
    ensures { result ≡ record { header = header_of raw; token = in_datagram 4 (token_of raw); count = count; options = options; payload = in_datagram payload (end - payload) } }
{
    Packet {
        header: Header::from_raw(raw),
        token: Range {
            home: Home::Datagram,
            start: 4,
            len: raw.token_length() as u32,
        },
        count,
        options,
        payload: Range {
            home: Home::Datagram,
            start: payload as u32,
            len: (end - payload) as u32,
        },
    }
}

// The header of a datagram that is refused for nothing before its options.
pub fn opening(strict: bool, buf: &[u8]) -> Result<HeaderRaw, Refusal>
    ensures { raw_read result ≡ headed strict buf.now }
{
    if MAX_STORE < buf.len() {
        return Err(Refusal::TooLong);
    }
    let raw = HeaderRaw::try_from(buf)?;
    after_header(strict, buf, raw)
}

// Version, token and emptiness.
fn after_header(strict: bool, buf: &[u8], raw: HeaderRaw) -> Result<HeaderRaw, Refusal>
    ensures { raw_read result ≡ good_header strict buf.now raw }
{
    let token_length = raw.token_length() as usize;
    if wrong_version(strict, raw.version()) {
        return Err(Refusal::WrongVersion);
    }
    if 8 < token_length {
        return Err(Refusal::InvalidTokenLength);
    }
    if buf.len() < 4 + token_length {
        return Err(Refusal::InvalidTokenLength);
    }
    if empty_carries(strict, raw.code, buf.len(), token_length) {
        return Err(Refusal::EmptyCarries);
    }
    Ok(raw)
}

fn wrong_version(strict: bool, version: u8) -> bool
    ensures { result ≡ both strict (not (eqb version 1)) }
{
    strict && version != 1
}

// An empty message is nothing but its header.
fn empty_carries(strict: bool, code: u8, len: usize, token_length: usize) -> bool
    ensures { result ≡ both strict (both (eqb code 0) (either (ltb 4 len) (not (eqb token_length 0)))) }
{
    if !strict {
        return false;
    }
    if code != 0 {
        return false;
    }
    4 < len || token_length != 0
}

// A marker that ends the datagram marks no payload.
pub fn marker_alone(strict: bool, marked: bool, payload: usize, len: usize) -> bool
    ensures { result ≡ both strict (both marked (eqb payload len)) }
{
    if !strict {
        return false;
    }
    marked && payload == len
}

// The longest value of an option.
pub fn longest_value(strict: bool) -> usize
    ensures { result ≡ longest strict }
{
    if strict {
        MAX_VALUE as usize
    } else {
        MAX_PLAIN_VALUE
    }
}
