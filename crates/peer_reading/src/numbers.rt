// Decimal numbers of a text, with no zero before their other digits.
ghost use Rattle.std.specs.Prelude.{◌≡◌};
ghost use Rattle.decimal.specs.Decimal.{decimal_of};
ghost use Rattle.peer_reading.specs.Reading.{zero_first, numeral, number_of, number_to};

use crate::Number;
use decimal::decimal_in;
use uri_text::part_end;

// The number before the first mark of a text.
pub fn number_to(text: &[u8], mark: u8, most: u64) -> Option<Number>
    ensures { number_of result ≡ number_to mark most text.now }
{
    let end = part_end(text, 0, mark);
    if text.len() <= end {
        return None;
    }
    let value = number_in(&text[..end], most)?;
    Some(Number {
        value,
        next: end + 1,
    })
}

// The number that a text is.
pub fn number_in(text: &[u8], most: u64) -> Option<u64>
    ensures { decimal_of result ≡ numeral most text.now }
{
    if zero_first(text) {
        return None;
    }
    decimal_in(text, most)
}

// Whether several digits begin with 0.
fn zero_first(text: &[u8]) -> bool
    ensures { result ≡ zero_first text.now }
{
    1 < text.len() && text[0] == b'0'
}
