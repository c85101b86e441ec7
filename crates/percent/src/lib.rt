// Bytes as the text of a path segment or of a query part, both ways: characters that stand literally, and percent codes for
// all others (RFC 3986, section 2.1).
#![tactic(auto)]

ghost use Rattle.std.specs.Prelude.{◌≡◌, ◌<◌, ◌≤◌, length};
ghost use Rattle.rfc.specs.Uri.{segment, query, literal};
ghost use Rattle.rfc.specs.Percent.{hex_digit, hex_value, coded, code};
ghost use Rattle.placing.specs.Put.{Puts};
ghost use Rattle.percent.specs.Step.{kind_of, digit_read, percent_at, step_at, others};

use refusal::Refusal;

// The two kinds of parts: segments of a path, and parts of a query.
#[derive(Clone, Copy)]
pub enum Kind {
    Segment,
    Query,
}

// Whether a character stands literally in a segment.
fn is_pchar(c: u8) -> bool
    ensures { result ≡ literal segment c }
{
    match c {
        b'!' => true,
        b'$' => true,
        b'=' => true,
        b'_' => true,
        b'~' => true,
        b'&'..=b'.' => true,
        b'0'..=b';' => true,
        b'@'..=b'Z' => true,
        b'a'..=b'z' => true,
        _ => false,
    }
}

// Whether a character stands literally in a query part.
fn is_query(c: u8) -> bool
    ensures { result ≡ literal query c }
{
    match c {
        b'&' => false,
        b'/' => true,
        b'?' => true,
        _ => is_pchar(c),
    }
}

// Whether a character stands literally in a part.
fn is_literal(kind: Kind, c: u8) -> bool
    ensures { result ≡ literal (kind_of kind) c }
{
    match kind {
        Kind::Segment => is_pchar(c),
        Kind::Query => is_query(c),
    }
}

// The number of a hexadecimal digit, of either case; none for any other character.
pub fn hex_value(c: u8) -> Option<u8>
    ensures { result ≡ digit_read (hex_value c) }
{
    match c {
        b'0'..=b'9' => Some(c - 0x30),
        b'A'..=b'F' => Some(c - 0x37),
        b'a'..=b'f' => Some(c - 0x57),
        _ => None,
    }
}

// The upper-case hexadecimal digit of a number.
fn hex_digit(n: u8) -> u8
    requires { n < 16 }
    ensures { result ≡ hex_digit n }
{
    if n < 10 {
        return 0x30 + n;
    }
    0x37 + n
}

// A byte of a part's text, and the place after what stands for it.
#[derive(Clone, Copy)]
pub struct Coded {
    pub byte: u8,
    pub next: usize,
}

// The byte at a place of a part's text; none where the text ends there. Refused: no character of such a part, or no percent code.
pub fn byte_at(kind: Kind, part: &[u8], i: usize) -> Result<Option<Coded>, Refusal>
    ensures { result ≡ step_at (kind_of kind) part.now i }
{
    if part.len() <= i {
        return Ok(None);
    }
    let byte = part[i];
    if byte == b'%' {
        return percent_at(part, i + 1);
    }
    if is_literal(kind, byte) {
        return Ok(Some(Coded { byte, next: i + 1 }));
    }
    Err(Refusal::BadText)
}

// The byte of a percent code whose digits stand at a place.
fn percent_at(part: &[u8], i: usize) -> Result<Option<Coded>, Refusal>
    requires { i ≤ length part.now }
    ensures { result ≡ percent_at part.now i }
{
    if part.len() - i < 2 {
        return Err(Refusal::BadText);
    }
    let high = hex_value(part[i]).ok_or(Refusal::BadText)?;
    let low = hex_value(part[i + 1]).ok_or(Refusal::BadText)?;
    Ok(Some(Coded {
        byte: high * 16 + low,
        next: i + 2,
    }))
}

// Puts a byte's text.
fn put_coded(out: &mut [u8], at: usize, kind: Kind, b: u8) -> usize
    ensures { Puts out.old at (coded (kind_of kind) b) result out.new }
{
    if is_literal(kind, b) {
        return placing::put_byte(out, at, b);
    }
    let triplet = [b'%', hex_digit(b / 16), hex_digit(b % 16)];
    placing::put_bytes(out, at, &triplet)
}

// Puts a value's text.
pub fn put_value(out: &mut [u8], at: usize, kind: Kind, value: &[u8]) -> usize
    ensures { Puts out.old at (code (kind_of kind) value.now) result out.new }
{
    let mut next = at;
    for b in value {
        next = put_coded(out, next, kind, *b);
    }
    next
}

// How many bytes of a value are percent-coded: its text has two characters more for each.
pub fn coded_count(kind: Kind, value: &[u8]) -> usize
    ensures { result ≡ others (kind_of kind) value.now }
{
    value.iter().filter(|b| !is_literal(kind, **b)).count()
}
