// What the numbers of a flat form answer when they are written, before a byte is: they are judged where they stand, and no packet
// is made of them.
#![tactic(auto)]

ghost use Rattle.std.specs.Prelude.{◌≡◌, ◌+◌, ◌*◌, ◌≤◌, length, get_or};
ghost use Rattle.refusal.specs.Answer.{written, outcome};
ghost use Rattle.packet.specs.Limits.{max_options, max_value};
ghost use Rattle.packet.specs.Packet.{records_of};
ghost use Rattle.judging.specs.Judge.{length_in, outside, option_size, options_size, judged};
ghost use Rattle.measuring.specs.Measuring.{marker_size, empty_carries, strictly, size_fitted, written_size};
ghost use Rattle.unflat.specs.Unflat.{home_of, record_at, packet_in};
ghost use Rattle.flat_measuring.specs.FlatMeasuring.{measured_in, judging_in, cut_short, bad_start, bad_next, dropped, sent_in};

use judging::{Lengths, extension_size};
use packet::limits::{MAX_OPTIONS, MAX_TOKEN, MAX_VALUE};
use refusal::Refusal;

// The answer of writing the packet of a flat form, without a limit, over stores of the given lengths and into an output with this
// much room.
pub fn measured(
    strict: bool,
    numbers: &[u32],
    lengths: Lengths,
    room: usize,
) -> Result<usize, Refusal>
    ensures { written result ≡ measured_in strict room lengths numbers.now }
{
    if lengths.too_long() {
        return Err(Refusal::TooLong);
    }
    let options = judge(numbers, lengths)?;
    judged_strictly(strict, numbers)?;
    sized(strict, numbers, options, room)
}

// One walk over the records judges their numbers and counts what they take. The head is judged behind it: read before, its numbers
// would be kept for the message's first bytes, in registers that the walk needs.
fn judge(numbers: &[u32], lengths: Lengths) -> Result<usize, Refusal>
    ensures { judged result ≡ judging_in lengths numbers.now }
{
    if cut_short(numbers) {
        return Err(Refusal::BadRecord);
    }
    let count = numbers[10] as usize;
    let mut before: u32 = 0;
    let mut size: usize = 0;
    for i in 0..count {
        let at = 11 + 4 * i;
        if bad_next(numbers, at, before, lengths) {
            return Err(Refusal::BadRecord);
        }
        size = size + size_after(numbers, at, before);
        before = numbers[at];
    }
    if unflat::bad_frame(numbers) {
        return Err(Refusal::BadRecord);
    }
    if bad_start(numbers, lengths) {
        return Err(Refusal::BadRecord);
    }
    Ok(size)
}

// Whether numbers are too few for a head, or for the records that it counts, or it counts too many.
fn cut_short(numbers: &[u32]) -> bool
    ensures { result ≡ cut_short numbers.now }
{
    if numbers.len() < 11 {
        return true;
    }
    if (MAX_OPTIONS as u32) < numbers[10] {
        return true;
    }
    numbers.len() < 11 + 4 * numbers[10] as usize
}

// Whether the version, the token or the payload makes the packet bad.
fn bad_start(numbers: &[u32], lengths: Lengths) -> bool
    requires { 11 ≤ length numbers.now }
    ensures { result ≡ bad_start lengths numbers.now }
{
    if 3 < numbers[0] {
        return true;
    }
    if outside(lengths, numbers[4], numbers[5], numbers[6]) {
        return true;
    }
    if outside(lengths, numbers[7], numbers[8], numbers[9]) {
        return true;
    }
    MAX_TOKEN < numbers[6]
}

// Whether the record whose number stands at a place is bad after one of the number `before`.
fn bad_next(numbers: &[u32], at: usize, before: u32, lengths: Lengths) -> bool
    requires { at + 4 ≤ length numbers.now }
    ensures { result ≡ bad_next lengths numbers.now before at }
{
    let number = numbers[at];
    let home = numbers[at + 1];
    let len = numbers[at + 3];
    if 65535 < number {
        return true;
    }
    if 1 < home {
        return true;
    }
    if number < before {
        return true;
    }
    if outside(lengths, home, numbers[at + 2], len) {
        return true;
    }
    MAX_VALUE < len
}

// Whether a range ends past the store that its home names.
fn outside(lengths: Lengths, home: u32, start: u32, len: u32) -> bool
    ensures { result ≡ outside lengths (record { home = home_of home; start = start; len = len }) }
{
    length_in(lengths, home) < start as usize + len as usize
}

// How long the store is that a home's number names.
fn length_in(lengths: Lengths, home: u32) -> usize
    ensures { result ≡ length_in lengths (home_of home) }
{
    if home == 0 {
        return lengths.datagram;
    }
    lengths.edits
}

// How many bytes the option takes whose number stands at a place, after one of the number `before`.
fn size_after(numbers: &[u32], at: usize, before: u32) -> usize
    requires { (at + 4 ≤ length numbers.now) × (before ≤ get_or numbers.now at 0) }
    ensures { result ≡ option_size before (record_at numbers.now at) }
{
    let delta = (numbers[at] - before) as usize;
    let len = numbers[at + 3] as usize;
    1 + extension_size(delta) + extension_size(len) + len
}

// What strict mode asks besides: version 1, a token of at most 8 bytes, and nothing but a header in an empty message.
fn judged_strictly(strict: bool, numbers: &[u32]) -> Result<(), Refusal>
    requires { 11 ≤ length numbers.now }
    ensures { outcome result ≡ strictly strict (packet_in numbers.now) }
{
    if !strict {
        return Ok(());
    }
    if numbers[0] != 1 {
        return Err(Refusal::WrongVersion);
    }
    if 8 < numbers[6] {
        return Err(Refusal::InvalidTokenLength);
    }
    if empty_carries(numbers) {
        return Err(Refusal::EmptyCarries);
    }
    Ok(())
}

// An empty message is nothing but its header.
fn empty_carries(numbers: &[u32]) -> bool
    requires { 11 ≤ length numbers.now }
    ensures { result ≡ empty_carries (packet_in numbers.now) }
{
    if numbers[2] != 0 {
        return false;
    }
    if 0 < numbers[6] {
        return true;
    }
    0 < numbers[10] || 0 < numbers[9]
}

// The refusal of the room, or how many bytes are to be written.
fn sized(strict: bool, numbers: &[u32], options: usize, room: usize) -> Result<usize, Refusal>
    requires { (11 ≤ length numbers.now) × (options ≡ options_size 0 (records_of (packet_in numbers.now))) × (options ≤ max_options * (max_value + 5)) }
    ensures { written result ≡ size_fitted room (written_size strict (packet_in numbers.now)) }
{
    let length = 4 + numbers[6] as usize + options + payload_size(strict, numbers);
    if room < length {
        return Err(Refusal::NoRoom);
    }
    Ok(length)
}

// How many bytes the payload takes that is sent, with its marker.
fn payload_size(strict: bool, numbers: &[u32]) -> usize
    requires { 11 ≤ length numbers.now }
    ensures { result ≡ (sent_in strict numbers.now).len + marker_size (sent_in strict numbers.now).len }
{
    if drops(strict, numbers[2]) {
        return 0;
    }
    if numbers[9] == 0 {
        return 0;
    }
    numbers[9] as usize + 1
}

// Plain drops the payload of code byte 0. No table of classes is asked: no other byte is that of the empty message.
pub fn drops(strict: bool, code: u32) -> bool
    ensures { result ≡ dropped strict code }
{
    if strict {
        return false;
    }
    code == 0
}
