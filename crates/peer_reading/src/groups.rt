// Groups of hexadecimal digits with colons between (RFC 4291, section 2.2).
ghost use Rattle.std.specs.Prelude.{◌≡◌, ◌+◌, ◌<◌, eqb, length, get_or};
ghost use Rattle.ground.specs.Choice.{both};
ghost use Rattle.rfc.specs.Percent.{hex_value};
ghost use Rattle.placing.specs.Put.{Puts};
ghost use Rattle.peer_reading.specs.Reading.{pair_bytes, is_side, side_bytes, gap_in};

use percent::hex_value;
use placing::put_bytes;

// Where the first `::` stands; the end where there is none.
pub fn gap_in(text: &[u8]) -> usize
    ensures { result ≡ gap_in text.now }
{
    for i in 0..text.len() {
        if colons_at(text, i) {
            return i;
        }
    }
    text.len()
}

// Whether two colons stand at a place.
fn colons_at(text: &[u8], i: usize) -> bool
    requires { i < length text.now }
    ensures { result ≡ both (eqb (get_or text.now i 0) 58) (eqb (get_or text.now (i + 1) 0) 58) }
{
    if text[i] != b':' {
        return false;
    }
    if text.len() - i < 2 {
        return false;
    }
    text[i + 1] == b':'
}

// Whether a text is groups, or empty.
pub fn are_groups(text: &[u8]) -> bool
    ensures { result ≡ is_side text.now }
{
    if text.len() == 0 {
        return true;
    }
    let mut digits: u8 = 0;
    for byte in text {
        if *byte == b':' {
            if digits == 0 {
                return false;
            }
            digits = 0;
        } else {
            if hex_value(*byte).is_none() {
                return false;
            }
            if 3 < digits {
                return false;
            }
            digits += 1;
        }
    }
    0 < digits
}

// Puts the bytes of groups, two for each.
pub fn put_groups(out: &mut [u8], at: usize, text: &[u8]) -> usize
    ensures { Puts out.old at (side_bytes text.now) result out.new }
{
    if text.len() == 0 {
        return at;
    }
    let mut value: u64 = 0;
    let mut next = at;
    for byte in text {
        if *byte == b':' {
            next = put_pair(out, next, value);
            value = 0;
        } else {
            value = value % 4096 * 16 + worth(*byte);
        }
    }
    put_pair(out, next, value)
}

// What a digit adds to its group's value; 16, more than any digit, for another character.
fn worth(byte: u8) -> u64
    ensures { result ≡ hex_value byte }
{
    match hex_value(byte) {
        Some(digit) => digit as u64,
        None => 16,
    }
}

// Puts a number of 16 bits, the high byte first.
pub fn put_pair(out: &mut [u8], at: usize, number: u64) -> usize
    ensures { Puts out.old at (pair_bytes number) result out.new }
{
    let pair = [(number / 256 % 256) as u8, (number % 256) as u8];
    put_bytes(out, at, &pair)
}
