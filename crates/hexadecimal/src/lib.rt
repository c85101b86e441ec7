// Bytes as hexadecimal text, both ways: put into a lent output as digits, and put as bytes that digits stand for.
#![tactic(auto)]

ghost use Rattle.std.specs.Prelude.{◌≡◌, true, ◌<◌, length};
ghost use Rattle.refusal.specs.Answer.{written, after};
ghost use Rattle.placing.specs.Put.{Puts};
ghost use Rattle.hexadecimal.specs.Hex.{hex_digit, hex_byte, hex, digit_of, digit_read, all_digits, is_hex, pairs, unhex_into};

use refusal::Refusal;

// A hexadecimal digit, in lower case.
fn hex_digit(digit: u8) -> u8
    requires { digit < 16 }
    ensures { result ≡ hex_digit digit }
{
    if digit < 10 {
        return b'0' + digit;
    }
    b'a' + (digit - 10)
}

// Puts the two digits of a byte.
fn put_hex_byte(out: &mut [u8], at: usize, byte: u8) -> usize
    ensures { Puts out.old at (hex_byte byte) result out.new }
{
    let pair = [hex_digit(byte / 16), hex_digit(byte % 16)];
    placing::put_bytes(out, at, &pair)
}

// Puts bytes as hexadecimal digits, two for each; a dash stands for no bytes.
pub fn put_hex(out: &mut [u8], at: usize, bytes: &[u8]) -> usize
    ensures { Puts out.old at (hex bytes.now) result out.new }
{
    if bytes.len() == 0 {
        return placing::put_byte(out, at, b'-');
    }
    let mut next = at;
    for byte in bytes {
        next = put_hex_byte(out, next, *byte);
    }
    next
}

// The value of a hexadecimal digit, in lower case; none for any other byte.
pub fn hex_digit_of(byte: u8) -> Option<u8>
    ensures { result ≡ digit_read (digit_of byte) }
{
    match byte {
        b'0'..=b'9' => Some(byte - b'0'),
        b'a'..=b'f' => Some(byte - b'a' + 10),
        _ => None,
    }
}

// Whether a text is pairs of hexadecimal digits.
pub fn is_hex(text: &[u8]) -> bool
    ensures { result ≡ is_hex text.now }
{
    for byte in text {
        if hex_digit_of(*byte).is_none() {
            return false;
        }
    }
    text.len() % 2 == 0
}

// Puts the bytes that pairs of digits stand for.
fn put_pairs(out: &mut [u8], at: usize, text: &[u8]) -> usize
    requires { all_digits text.now ≡ true }
    ensures { Puts out.old at (pairs text.now) result out.new }
{
    let count = text.len() / 2;
    let mut next = at;
    for i in 0..count {
        let high = hex_digit_of(text[2 * i]).unwrap();
        let low = hex_digit_of(text[2 * i + 1]).unwrap();
        next = placing::put_byte(out, next, high * 16 + low);
    }
    next
}

// Puts the bytes that a hexadecimal text stands for at a place. The whole text is judged before any byte is put.
pub fn put_unhexed(out: &mut [u8], at: usize, text: &[u8]) -> Result<usize, Refusal>
    ensures result_value { written result ≡ unhex_into (length out.old) at text.now }
    ensures out_after { out.new ≡ after (unhex_into (length out.old) at text.now) at (pairs text.now) out.old }
{
    if !is_hex(text) {
        return Err(Refusal::BadText);
    }
    if out.len() < at {
        return Err(Refusal::NoRoom);
    }
    if out.len() - at < text.len() / 2 {
        return Err(Refusal::NoRoom);
    }
    put_pairs(out, at, text);
    Ok(text.len() / 2)
}
