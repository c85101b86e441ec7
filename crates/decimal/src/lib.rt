// Decimal numbers as text, both ways: put into a lent output, and read from lent bytes.
#![tactic(auto)]

ghost use Rattle.std.specs.Prelude.{◌≡◌};
ghost use Rattle.refusal.specs.Answer.{onward};
ghost use Rattle.placing.specs.Put.{Puts};
ghost use Rattle.decimal.specs.Decimal.{decimal, digit_after, at_most, decimal_at, decimal_of};

// Puts a number's decimal digits. They are found from the last to the first.
pub fn put_decimal(out: &mut [u8], at: usize, number: u64) -> usize
    ensures { Puts out.old at (decimal number) result out.new }
{
    let mut digits = [0u8; 20];
    let mut first = 19;
    let mut rest = number;
    while 10 <= rest {
        digits[first] = b'0' + (rest % 10) as u8;
        first = first - 1;
        rest = rest / 10;
    }
    digits[first] = b'0' + rest as u8;
    placing::put_bytes(out, at, &digits[first..])
}

// The number after one more digit, where it is at most `most`. It is judged before it is made, so that none wraps.
fn further(value: u64, byte: u8, most: u64) -> Option<u64>
    ensures { decimal_of result ≡ onward (digit_after value byte) (at_most most) }
{
    if byte < b'0' || b'9' < byte {
        return None;
    }
    let digit = (byte - b'0') as u64;
    if most < digit || (most - digit) / 10 < value {
        return None;
    }
    Some(value * 10 + digit)
}

// The number of a text that is digits alone, where it is at most `most`; leading zeros are read. A number that is over it stays
// over it, however it goes on.
pub fn decimal_in(text: &[u8], most: u64) -> Option<u64>
    ensures { decimal_of result ≡ decimal_at most text.now }
{
    if text.len() == 0 {
        return None;
    }
    let mut value: u64 = 0;
    for byte in text {
        value = further(value, *byte, most)?;
    }
    Some(value)
}
