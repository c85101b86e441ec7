// Writing a message straight from a packet's flat form: the numbers are measured first, and then the bytes are put; no packet is
// made of them.
#![tactic(auto)]

ghost use Rattle.std.specs.Prelude.{◌≡◌, Bool, ℕ, ◌+◌, ◌≤◌, length, get_or, take, leb, Ok};
ghost use Rattle.ground.specs.Choice.{both};
ghost use Rattle.ground.specs.Part.{part};
ghost use Rattle.rfc.specs.Message.{extension_of, option_layout, options_layout};
ghost use Rattle.refusal.specs.Answer.{given, written, after};
ghost use Rattle.placing.specs.Put.{Put};
ghost use Rattle.packet.specs.Packet.{held, store_of, bytes_of};
ghost use Rattle.packet.specs.Meaning.{meaning};
ghost use Rattle.judging.specs.Judge.{lengths_of, length_in};
ghost use Rattle.laying.specs.Laying.{LaysHeader, size_of};
ghost use Rattle.writing.specs.Writing.{bytes_written};
ghost use Rattle.unflat.specs.Unflat.{bad_head, header_in, home_of, packet_in};
ghost use Rattle.flat_measuring.specs.FlatMeasuring.{Sound, sent_in};
ghost use Rattle.flat_writing.specs.FlatWriting.{packet_of, packet_over, copying};
ghost use Rattle.flat_writing.specs.Loosely.{Loosely, nibbles_of};

use flat_measuring::{drops, measured};
use header::HeaderRaw;
use judging::{Lengths, extension_size};
use laying::{is_short, nibble, put_option, put_payload};
use packet::Stores;
use placing::{RUN, put_bytes, put_run};
use refusal::Refusal;

// Writes the packet of a flat form, which may stand at the start of a longer slice, over its two stores and without a limit.
// All is measured before a byte is put, so that a refusal changes nothing.
pub fn write<'a>(
    strict: bool,
    numbers: &[u32],
    stores: Stores<'a>,
    out: &mut [u8],
) -> Result<usize, Refusal>
    ensures result_value { written result ≡ copying strict (length out.old) (held stores.entry) (packet_over (held stores.entry) numbers.now) }
    ensures out_after { out.new ≡ after (copying strict (length out.old) (held stores.entry) (packet_over (held stores.entry) numbers.now)) 0 (bytes_written strict (held stores.entry) (packet_of (packet_over (held stores.entry) numbers.now))) out.old }
{
    let lengths = Lengths::of(stores);
    let end = measured(strict, numbers, lengths, out.len())?;
    Ok(put_message(out, end, strict, numbers, stores))
}

// Puts the message at the start of the output: header and token, options, payload.
fn put_message<'a>(
    out: &mut [u8],
    end: usize,
    strict: bool,
    numbers: &[u32],
    stores: Stores<'a>,
) -> usize
    requires { Sound (lengths_of (held stores)) numbers.now × (length (bytes_written strict (held stores) (packet_in numbers.now)) ≤ length out.old) × (end ≡ length (bytes_written strict (held stores) (packet_in numbers.now))) }
    ensures { Put out.old 0 (bytes_written strict (held stores.entry) (packet_in numbers.now)) result out.new }
{
    let token = part(numbers[4], numbers[5], numbers[6], stores);
    let first = put_head(out, numbers, token);
    let next = put_options(out, first, end, numbers, stores);
    let payload = sent_payload(strict, numbers, stores);
    next + put_payload(out, next, payload).unwrap()
}

// Puts header and token at the start of the output.
fn put_head(out: &mut [u8], numbers: &[u32], token: &[u8]) -> usize
    requires { (11 ≤ length numbers.now) × (bad_head numbers.now ≡ Bool.false) × (get_or numbers.now 0 0 ≤ 3) × (length token.now ≡ get_or numbers.now 6 0) × (get_or numbers.now 6 0 ≤ 15) × (4 + length token.now ≤ length out.old) }
    ensures { LaysHeader (header_in numbers.now) token.now out.old (Ok result) out.new }
{
    let raw = HeaderRaw {
        ver_type_tkl: (numbers[0] * 64 + numbers[1] * 16 + numbers[6]) as u8,
        code: numbers[2] as u8,
        message_id: numbers[3] as u16,
    };
    raw.serialize_into(out).unwrap();
    put_bytes(out, 4, token)
}

// Puts the options from a place on. What stands behind the last of them, before the message's end, is the payload's to put over.
fn put_options<'a>(
    out: &mut [u8],
    from: usize,
    end: usize,
    numbers: &[u32],
    stores: Stores<'a>,
) -> usize
    requires { Sound (lengths_of (held stores)) numbers.now × (from + length (options_layout 0 (meaning (held stores) (packet_in numbers.now)).options) ≤ end) × (end ≤ length out.old) }
    ensures { Loosely out.old from (options_layout 0 (meaning (held stores.entry) (packet_in numbers.now)).options) end result out.new }
{
    let count = numbers[10] as usize;
    let mut next = from;
    let mut before: u32 = 0;
    for i in 0..count {
        let at = 11 + 4 * i;
        let delta = (numbers[at] - before) as usize;
        let store = store_of(numbers[at + 1], stores);
        let start = numbers[at + 2] as usize;
        let len = numbers[at + 3] as usize;
        next = put_option_in(out, next, end, delta, store, start, len);
        before = numbers[at];
    }
    next
}

// Puts an option whose value lies in a store: loosely where there is room for that, and else just its bytes.
fn put_option_in(
    out: &mut [u8],
    at: usize,
    end: usize,
    delta: usize,
    store: &[u8],
    start: usize,
    len: usize,
) -> usize
    requires { (delta ≤ 65535) × (len ≤ 65804) × (start + len ≤ length store.now) × (at + size_of delta len ≤ end) × (end ≤ length out.old) }
    ensures { Loosely out.old at (option_layout 0 (record { number = delta; value = part store.now start len })) end result out.new }
{
    if is_loose(len, store.len() - start, end - at) {
        return put_loosely(out, at, delta, &store[start..], len);
    }
    at + put_option(out, at, 0, delta as u16, &store[start..start + len]).unwrap()
}

// Whether a value is short enough to be put as a run of 32 bytes, of which there are that many, with room for them behind five
// bytes of nibbles and extensions.
fn is_loose(len: usize, held: usize, room: usize) -> bool
    ensures { result ≡ both (leb len 32) (both (leb 32 held) (leb 37 room)) }
{
    if RUN < len {
        return false;
    }
    if held < RUN {
        return false;
    }
    5 + RUN <= room
}

// Puts an option whose value is the first of the bytes that are lent. As many are put for every value, so that no branch depends on
// its length, which nothing foresees.
fn put_loosely(out: &mut [u8], at: usize, delta: usize, bytes: &[u8], len: usize) -> usize
    requires { (delta ≤ 65535) × (len ≤ 32) × (32 ≤ length bytes.now) × (at + 37 ≤ length out.old) }
    ensures { Loosely out.old at (option_layout 0 (record { number = delta; value = take len bytes.now })) (at + 37) result out.new }
{
    let value = put_nibbles(out, at, delta, len);
    put_run(out, value, bytes);
    value + len
}

// Puts what stands before an option's value: the byte of the nibbles, which is all of it in most options, and the two extensions.
fn put_nibbles(out: &mut [u8], at: usize, delta: usize, len: usize) -> usize
    requires { (delta ≤ 65535) × (len ≤ 65804) × (at + 5 ≤ length out.old) }
    ensures { Loosely out.old at (nibbles_of delta len) (at + 5) result out.new }
{
    if is_short(delta, len) {
        out[at] = (delta * 16 + len) as u8;
        return at + 1;
    }
    out[at] = nibble(delta) * 16 + nibble(len);
    let next = put_extension(out, at + 1, delta);
    put_extension(out, next, len)
}

// Puts two bytes, of which an extension is the first or both or none.
fn put_extension(out: &mut [u8], at: usize, n: usize) -> usize
    requires { (n ≤ 65804) × (at + 2 ≤ length out.old) }
    ensures { Loosely out.old at (extension_of n) (at + 2) result out.new }
{
    out[at] = first_byte(n);
    out[at + 1] = second_byte(n);
    at + extension_size(n)
}

// The first byte of an extension, and 0 where there is none.
fn first_byte(n: usize) -> u8
    requires { n ≤ 65804 }
    ensures { result ≡ get_or (extension_of n) 0 0 }
{
    if n < 13 {
        return 0;
    }
    if n < 269 {
        return (n - 13) as u8;
    }
    ((n - 269) / 256) as u8
}

// The second byte of an extension, and 0 where there is none.
fn second_byte(n: usize) -> u8
    ensures { result ≡ get_or (extension_of n) 1 0 }
{
    if n < 269 {
        return 0;
    }
    ((n - 269) % 256) as u8
}

// The store that a home's number names.
fn store_of<'a>(home: u32, stores: Stores<'a>) -> &'a [u8]
    ensures { result.now ≡ store_of (held stores.entry) (home_of home) }
{
    if home == 0 {
        return stores.datagram;
    }
    stores.edits
}

// The bytes that a range names in the store of its home.
fn part<'a>(home: u32, start: u32, len: u32, stores: Stores<'a>) -> &'a [u8]
    requires { start + len ≤ length_in (lengths_of (held stores)) (home_of home) }
    ensures { result.now ≡ bytes_of (held stores.entry) (record { home = home_of home; start = start; len = len }) }
{
    let first = start as usize;
    let end = first + len as usize;
    let store = store_of(home, stores);
    &store[first..end]
}

// The bytes of the payload that is sent.
fn sent_payload<'a>(strict: bool, numbers: &[u32], stores: Stores<'a>) -> &'a [u8]
    requires { Sound (lengths_of (held stores)) numbers.now }
    ensures { result.now ≡ bytes_of (held stores.entry) (sent_in strict numbers.now) }
{
    if drops(strict, numbers[2]) {
        return b"";
    }
    part(numbers[7], numbers[8], numbers[9], stores)
}
