// The path and query text of a coap URI, judged part by part: how many options it makes, and how many bytes their values have.
#![tactic(auto)]

ghost use Rattle.std.specs.Prelude.{◌≡◌, ◌+◌, ◌<◌, eqb, length, drop};
ghost use Rattle.ground.specs.Choice.{both};
ghost use Rattle.rfc.specs.Uri.{segment};
ghost use Rattle.rfc.specs.Percent.{on_good};
ghost use Rattle.rfc.specs.Target.{parts, segments_of};
ghost use Rattle.percent.specs.Step.{kind_of};
ghost use Rattle.uri_text.specs.Reading.{value_of, values_of, reading};
ghost use Rattle.uri_text.specs.Tally.{first_length, tally_from, tallied, tally};
ghost use Rattle.uri_text.specs.Judging.{judged_read, fault_of, length_of, dotted_by, ruled_by};

use percent::{Kind, byte_at};
use refusal::{Fault, Refusal};
use utf8::Due;

// How many bytes a path or query option's value has at most.
const LONGEST: usize = 255;

// What a part of the text breaks: the rules of the text; or those of the option that it would become, of which the index is told.
#[derive(Clone, Copy, Debug, PartialEq, Eq)]
pub enum BadPart {
    Text,
    Option(usize),
}

impl From<BadPart> for Fault {
    ghost from_gives = { λ p e. e ≡ fault_of p };

    fn from(bad: BadPart) -> Fault {
        match bad {
            BadPart::Text => Fault::Refused(Refusal::BadText),
            BadPart::Option(index) => Fault::BadOption(index),
        }
    }
}

// Whether dots are still all there is.
fn only_dots(before: bool, b: u8) -> bool
    ensures { result ≡ both before (eqb b 0x2E) }
{
    before && b == b'.'
}

// Whether a value of this length is `.` or `..`, where dots are all there is or not.
fn is_dotted(kind: Kind, len: usize, only: bool) -> bool
    ensures { result ≡ dotted_by (kind_of kind) len only }
{
    match kind {
        Kind::Segment => 1 <= len && len <= 2 && only,
        Kind::Query => false,
    }
}

// The rules on a value that was passed to its end, where `due` bytes of a character are due.
fn judge_end(kind: Kind, index: usize, len: usize, only: bool, due: u8) -> Result<usize, BadPart>
    ensures { judged_read result ≡ ruled_by (kind_of kind) index len only (eqb due 0) }
{
    if due != 0 {
        return Err(BadPart::Text);
    }
    if LONGEST < len || is_dotted(kind, len, only) {
        return Err(BadPart::Option(index));
    }
    Ok(len)
}

// Judges a part's text: 15 anywhere in it, then 16 with the index of the record that it would become. Its value may be longer
// than any option's, so UTF-8 is judged while it is decoded, and no byte is kept.
pub fn judge_part(kind: Kind, index: usize, part: &[u8]) -> Result<usize, BadPart>
    ensures { judged_read result ≡ length_of (value_of (kind_of kind) index part.now) }
{
    let mut due = Due {
        count: 0,
        low: 0x80,
        high: 0xBF,
    };
    let mut only = true;
    let mut len: usize = 0;
    let mut i = 0;
    loop {
        let Ok(step) = byte_at(kind, part, i) else {
            return Err(BadPart::Text);
        };
        let Some(coded) = step else {
            return judge_end(kind, index, len, only, due.count);
        };
        due = due.after(coded.byte).ok_or(BadPart::Text)?;
        only = only_dots(only, coded.byte);
        len = len + 1;
        i = coded.next;
    }
}

// The place of the first separator from a place on, or the end.
pub fn part_end(text: &[u8], from: usize, separator: u8) -> usize
    ensures { result ≡ from + first_length separator (drop from text.now) }
{
    for end in from..text.len() {
        if text[end] == separator {
            return end;
        }
    }
    from.max(text.len())
}

// What parts come to: how many values, and how many bytes these have together.
#[derive(Clone, Copy)]
pub struct Tally {
    pub count: usize,
    pub bytes: usize,
}

// Judges the parts of a text in turn, after values that were tallied before.
fn judge_parts(kind: Kind, separator: u8, passed: Tally, text: &[u8]) -> Result<Tally, BadPart>
    requires { (passed.count + length text.now + 1 < 18446744073709551616) × (passed.bytes + length text.now < 18446744073709551616) }
    ensures { tallied result ≡ tally_from passed.count passed.bytes (values_of (kind_of kind) passed.count (parts separator text.now)) }
{
    if text.len() == 0 {
        return Ok(passed);
    }
    let mut from = 0;
    let mut count = passed.count;
    let mut bytes = passed.bytes;
    loop {
        let end = part_end(text, from, separator);
        bytes = bytes + judge_part(kind, count, &text[from..end])?;
        count = count + 1;
        if end == text.len() {
            return Ok(Tally { count, bytes });
        }
        from = end + 1;
    }
}

// Judges a path: its first character, then its segments.
fn judge_path(path: &[u8]) -> Result<Tally, BadPart>
    ensures { tallied result ≡ tally_from 0 0 (on_good (segments_of path.now) (values_of segment 0)) }
{
    let none = Tally { count: 0, bytes: 0 };
    if path.len() == 0 {
        return Ok(none);
    }
    if path[0] != b'/' {
        return Err(BadPart::Text);
    }
    judge_parts(Kind::Segment, b'/', none, &path[1..])
}

// Judges a text: the path up to the first `?`, then the query after it.
pub fn judge_text(text: &[u8]) -> Result<Tally, BadPart>
    ensures { tallied result ≡ tally (reading text.now) }
{
    let mark = part_end(text, 0, b'?');
    let path = judge_path(&text[0..mark])?;
    if mark == text.len() {
        return Ok(path);
    }
    judge_parts(Kind::Query, b'&', path, &text[mark + 1..])
}
