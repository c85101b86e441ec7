// The pieces of a message put into a lent output: the header with its token, an option, the payload. Each function judges and
// counts before it puts a byte, so that a refused piece changes nothing.
#![tactic(auto)]

ghost use Rattle.std.specs.Prelude.{◌≡◌, ◌+◌, ◌≤◌, length, ltb};
ghost use Rattle.ground.specs.Choice.{both};
ghost use Rattle.rfc.specs.Message.{nibble_of, extension_of, option_layout};
ghost use Rattle.refusal.specs.Answer.{written};
ghost use Rattle.placing.specs.Put.{Put};
ghost use Rattle.laying.specs.Laying.{LaysHeader, LaysOption, LaysPayload, size_of, judged_option};

use header::Header;
use judging::extension_size;
use packet::limits::{MAX_TOKEN, MAX_VALUE};
use placing::put_bytes;
use refusal::Refusal;

// Puts header and token at the start of the output.
pub fn put_header(out: &mut [u8], header: Header, token: &[u8]) -> Result<usize, Refusal>
    ensures { LaysHeader header token.now out.old result out.new }
{
    if 3 < header.version {
        return Err(Refusal::BadRecord);
    }
    if (MAX_TOKEN as usize) < token.len() {
        return Err(Refusal::BadRecord);
    }
    if out.len() < 4 + token.len() {
        return Err(Refusal::NoRoom);
    }
    let raw = header.to_raw(token.len() as u8);
    raw.serialize_into(out).unwrap();
    Ok(put_bytes(out, 4, token))
}

// Puts an option after one of the number `before`.
pub fn put_option(
    out: &mut [u8],
    at: usize,
    before: u16,
    number: u16,
    value: &[u8],
) -> Result<usize, Refusal>
    ensures { LaysOption before (record { number = number; value = value.now }) at out.old result out.new }
{
    let size = judged_option(before, number, value.len(), out.len(), at)?;
    put_parts(out, at, (number - before) as usize, value);
    Ok(size)
}

// The refusals of an option, or how many bytes it takes.
fn judged_option(
    before: u16,
    number: u16,
    len: usize,
    room: usize,
    at: usize,
) -> Result<usize, Refusal>
    ensures { written result ≡ judged_option before number len room at }
{
    if number < before {
        return Err(Refusal::BadRecord);
    }
    if (MAX_VALUE as usize) < len {
        return Err(Refusal::BadRecord);
    }
    if room < at {
        return Err(Refusal::NoRoom);
    }
    let size = option_size((number - before) as usize, len);
    if room - at < size {
        return Err(Refusal::NoRoom);
    }
    Ok(size)
}

// Most options are short: neither their delta nor their length has an extension. Those are sized and put without looking for one.
pub fn is_short(delta: usize, len: usize) -> bool
    ensures { result ≡ both (ltb delta 13) (ltb len 13) }
{
    delta < 13 && len < 13
}

// How many bytes an option takes.
fn option_size(delta: usize, len: usize) -> usize
    requires { len ≤ 65804 }
    ensures { result ≡ size_of delta len }
{
    if is_short(delta, len) {
        return 1 + len;
    }
    1 + extension_size(delta) + extension_size(len) + len
}

// The option's bytes, where there is room for them: the byte of the nibbles, the two extensions, the value.
fn put_parts(out: &mut [u8], at: usize, delta: usize, value: &[u8]) -> usize
    requires { (delta ≤ 65804) × (length value.now ≤ 65804) × (at + size_of delta (length value.now) ≤ length out.old) }
    ensures { Put out.old at (option_layout 0 (record { number = delta; value = value.now })) result out.new }
{
    let len = value.len();
    if is_short(delta, len) {
        out[at] = (delta * 16 + len) as u8;
        return put_bytes(out, at + 1, value);
    }
    out[at] = nibble(delta) * 16 + nibble(len);
    let after_delta = put_extension(out, at + 1, delta);
    let after_length = put_extension(out, after_delta, len);
    put_bytes(out, after_length, value)
}

// The nibble of a delta or a length.
pub fn nibble(n: usize) -> u8
    ensures { result ≡ nibble_of n }
{
    if n < 13 {
        return n as u8;
    }
    if n < 269 {
        return 13;
    }
    14
}

// The extension of a delta or a length, high byte first, where there is room for it.
fn put_extension(out: &mut [u8], at: usize, n: usize) -> usize
    requires { (n ≤ 65804) × (at + length (extension_of n) ≤ length out.old) }
    ensures { Put out.old at (extension_of n) result out.new }
{
    if n < 13 {
        return at;
    }
    if n < 269 {
        out[at] = (n - 13) as u8;
        return at + 1;
    }
    out[at] = ((n - 269) / 256) as u8;
    out[at + 1] = ((n - 269) % 256) as u8;
    at + 2
}

// Puts the payload after its marker; no payload has no marker.
pub fn put_payload(out: &mut [u8], at: usize, payload: &[u8]) -> Result<usize, Refusal>
    ensures { LaysPayload payload.now at out.old result out.new }
{
    if out.len() < at {
        return Err(Refusal::NoRoom);
    }
    if payload.is_empty() {
        return Ok(0);
    }
    if out.len() - at <= payload.len() {
        return Err(Refusal::NoRoom);
    }
    out[at] = 255;
    let next = put_bytes(out, at + 1, payload);
    Ok(next - at)
}
