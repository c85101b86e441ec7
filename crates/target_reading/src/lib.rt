// The path and query text of a coap URI as a new packet, whose values stand in the edit store (RFC 7252, section 6.4).
#![tactic(auto)]

ghost use Rattle.std.specs.Prelude.{◌≡◌, ◌-◌, ◌≤◌, length, take, drop};
ghost use Rattle.placing.specs.Put.{Put};
ghost use Rattle.percent.specs.Step.{kind_of};
ghost use Rattle.target_reading.specs.FromText.{packet_with, FromText};
ghost use Rattle.target_reading.specs.Placing.{Tallies, bytes_of, Readable, Placeable, Places, Fills, Reads};

use packet::limits::{MAX_OPTIONS, MAX_STORE};
use packet::{Home, OptionRecord, Packet};
use percent::{Kind, byte_at};
use refusal::{Fault, Refusal};
use tables::option_number::{URI_PATH, URI_QUERY};
use uri_text::{Tally, judge_text, part_end};

// Reads a text into a new packet. Its values are put into the edit store, end to end from a start on. A part whose value no such
// option has is named by the index, from 0, of the record that it would become.
pub fn read_target(text: &[u8], edits: &mut [u8], start: u32) -> Result<Packet, Fault>
    ensures { FromText text.now start edits.old result edits.new }
{
    if MAX_STORE < edits.len() {
        return Err(Fault::Refused(Refusal::TooLong));
    }
    let tally = judge_text(text)?;
    put_target(text, edits, start, tally)
}

// Puts what a text says that was judged good, if there is room for it.
fn put_target(text: &[u8], edits: &mut [u8], start: u32, tally: Tally) -> Result<Packet, Fault>
    requires { Tallies text.now edits.old tally.count tally.bytes }
    ensures { FromText text.now start edits.old result edits.new }
{
    let at = start as usize;
    if MAX_OPTIONS < tally.count {
        return Err(Fault::Refused(Refusal::TooManyOptions));
    }
    if edits.len() < at {
        return Err(Fault::Refused(Refusal::NoRoom));
    }
    if edits.len() - at < tally.bytes {
        return Err(Fault::Refused(Refusal::NoRoom));
    }
    Ok(packet_with(put_both(text, edits, at)))
}

// Records as they are made: the first `count` of these, and the place after their values.
#[derive(Clone, Copy)]
struct Filled {
    options: [OptionRecord; MAX_OPTIONS],
    count: usize,
    at: usize,
}

// Puts the segments of a text's path, then the parts of its query.
fn put_both(text: &[u8], edits: &mut [u8], at: usize) -> Filled
    requires { Readable text.now edits.old at }
    ensures { Reads text.now at edits.old result edits.new }
{
    let mark = part_end(text, 0, b'?');
    let none = Filled {
        options: [OptionRecord::EMPTY; MAX_OPTIONS],
        count: 0,
        at,
    };
    let path = put_parts(
        Kind::Segment,
        URI_PATH,
        b'/',
        between(text, 1, mark),
        edits,
        none,
    );
    put_parts(
        Kind::Query,
        URI_QUERY,
        b'&',
        between(text, mark + 1, text.len()),
        edits,
        path,
    )
}

// The new packet with these records alone.
fn packet_with(filled: Filled) -> Packet
    ensures { result ≡ packet_with filled.count filled.options }
{
    let new = Packet::new();
    let header = new.header;
    let token = new.token;
    let payload = new.payload;
    let options = filled.options;
    Packet {
        header,
        token,
        count: filled.count,
        options,
        payload,
    }
}

// The part of a text from a place up to another; none where that comes before.
fn between(text: &[u8], from: usize, end: usize) -> &[u8]
    requires { end ≤ length text.now }
    ensures { result.now ≡ take (end - from) (drop from text.now) }
{
    if end < from {
        return &text[0..0];
    }
    &text[from..end]
}

// Puts the values of a text's parts, and makes a record for each.
fn put_parts(
    kind: Kind,
    number: u16,
    separator: u8,
    text: &[u8],
    edits: &mut [u8],
    filled: Filled,
) -> Filled
    requires { Placeable (kind_of kind) separator text.now edits.old filled }
    ensures { Fills (kind_of kind) number separator text.now edits.old filled result edits.new }
{
    let mut options = filled.options;
    let mut count = filled.count;
    let mut at = filled.at;
    let mut from = 0;
    if text.len() == 0 {
        return Filled { options, count, at };
    }
    loop {
        let end = part_end(text, from, separator);
        let next = put_part(kind, &text[from..end], edits, at);
        options[count] = OptionRecord {
            number,
            home: Home::Edits,
            spare: 0,
            start: at as u32,
            len: (next - at) as u32,
        };
        count += 1;
        at = next;
        if end == text.len() {
            return Filled { options, count, at };
        }
        from = end + 1;
    }
}

// Puts the bytes of a part that was judged good at a place that has room for them.
fn put_part(kind: Kind, part: &[u8], edits: &mut [u8], at: usize) -> usize
    requires { Places (kind_of kind) part.now edits.old at }
    ensures { Put edits.old at (bytes_of (kind_of kind) part.now) result edits.new }
{
    let mut next = at;
    let mut i = 0;
    loop {
        match byte_at(kind, part, i) {
            Ok(Some(coded)) => {
                edits[next] = coded.byte;
                next += 1;
                i = coded.next;
            }
            Ok(None) => return next,
            Err(_) => return next,
        }
    }
}
