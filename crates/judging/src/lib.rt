// The judgement of a packet before it is written, checked or edited: whether it has a bad record, what its options take,
// and where the records of a number stand.
#![tactic(auto)]

ghost use Rattle.std.specs.Prelude.{◌≡◌, ◌≤◌, ltb};
ghost use Rattle.ground.specs.Choice.{pick, either};
ghost use Rattle.packet.specs.Packet.{held};
ghost use Rattle.judging.specs.Judge.{lengths_of, is_too_long, length_in, outside, bad_value, bad_ranges, extension_size, option_size, judged, judging};
ghost use Rattle.judging.specs.Span.{span_in};

use packet::limits::{MAX_OPTIONS, MAX_STORE, MAX_TOKEN, MAX_VALUE};
use packet::{Home, OptionRecord, Packet, Range, Stores};
use refusal::Refusal;

// How long the two stores are.
#[derive(Clone, Copy)]
pub struct Lengths {
    pub datagram: usize,
    pub edits: usize,
}

impl Lengths {
    // Those of two stores that are lent.
    pub fn of(stores: Stores) -> Lengths
        ensures { result ≡ lengths_of (held stores.entry) }
    {
        Lengths {
            datagram: stores.datagram.len(),
            edits: stores.edits.len(),
        }
    }

    // Whether one of the stores is longer than any that is taken.
    pub fn too_long(self) -> bool
        ensures { result ≡ is_too_long self }
    {
        if MAX_STORE < self.datagram {
            return true;
        }
        MAX_STORE < self.edits
    }
}

// Judges a packet over stores of the given lengths, and counts what its options take; refuses one that has a bad record.
pub fn judge(packet: Packet, lengths: Lengths) -> Result<usize, Refusal>
    ensures { judged result ≡ judging lengths packet }
{
    let count = packet.count;
    if 3 < packet.header.version {
        return Err(Refusal::BadRecord);
    }
    if MAX_OPTIONS < count {
        return Err(Refusal::BadRecord);
    }
    if bad_ranges(lengths, packet.token, packet.payload) {
        return Err(Refusal::BadRecord);
    }
    if count == 0 {
        return Ok(0);
    }
    // Taken out by itself: an index into the packet's own array would have the whole packet copied. This is a copy too, and a
    // packet with no option is spared it.
    let options = packet.options;
    let mut before: u16 = 0;
    let mut size: usize = 0;
    for option in &options[..count] {
        if bad_record(lengths, before, *option) {
            return Err(Refusal::BadRecord);
        }
        size += size_after(before, *option);
        before = option.number;
    }
    Ok(size)
}

// Whether the token or the payload is outside its store, or the token too long for its four bits.
fn bad_ranges(lengths: Lengths, token: Range, payload: Range) -> bool
    ensures { result ≡ bad_ranges lengths token payload }
{
    if outside(lengths, token) {
        return true;
    }
    if outside(lengths, payload) {
        return true;
    }
    MAX_TOKEN < token.len
}

// Whether a record's number falls from the one before, or its value is outside its store or too long for any length that
// can be written.
fn bad_record(lengths: Lengths, before: u16, option: OptionRecord) -> bool
    ensures { result ≡ either (ltb option.number before) (bad_value lengths option) }
{
    if option.number < before {
        return true;
    }
    if outside(lengths, option.range()) {
        return true;
    }
    MAX_VALUE < option.len
}

// How long the store is that a home names.
fn length_in(lengths: Lengths, home: Home) -> usize
    ensures { result ≡ length_in lengths home }
{
    match home {
        Home::Datagram => lengths.datagram,
        Home::Edits => lengths.edits,
    }
}

// Whether a range ends past its store.
fn outside(lengths: Lengths, range: Range) -> bool
    ensures { result ≡ outside lengths range }
{
    let home = range.home;
    length_in(lengths, home) < range.start as usize + range.len as usize
}

// How many bytes an option takes after one of the number `before`.
fn size_after(before: u16, option: OptionRecord) -> usize
    requires { before ≤ option.number }
    ensures { result ≡ option_size before option }
{
    let delta = (option.number - before) as usize;
    let len = option.len as usize;
    1 + extension_size(delta) + extension_size(len) + len
}

// How many extension bytes a delta or a length takes.
pub fn extension_size(n: usize) -> usize
    ensures { result ≡ extension_size n }
{
    if n < 13 {
        return 0;
    }
    if n < 269 {
        return 1;
    }
    2
}

// Where the records of a number stand: from `low` up to `high`, among records whose numbers do not fall.
#[derive(Clone, Copy)]
pub struct Span {
    pub low: usize,
    pub high: usize,
}

// Says where a packet's records of a number stand; refuses records that are too many or whose numbers fall.
pub fn span_of(packet: Packet, number: u16) -> Result<Span, Refusal>
    ensures { result ≡ span_in packet number }
{
    let count = packet.count;
    if MAX_OPTIONS < count {
        return Err(Refusal::BadRecord);
    }
    let this = number as u32;
    let mut low = 0;
    let mut high = 0;
    let mut before = 0;
    for record in &packet.options[..count] {
        if record.number < before {
            return Err(Refusal::BadRecord);
        }
        before = record.number;
        low += lower(record.number, this);
        high += lower(record.number, this + 1);
    }
    Ok(Span { low, high })
}

// 1 for a number that is lower than a bound, and 0 for any other.
fn lower(number: u16, bound: u32) -> usize
    ensures { result ≡ pick (ltb number bound) 1 0 }
{
    if (number as u32) < bound {
        return 1;
    }
    0
}
