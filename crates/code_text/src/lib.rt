// Code bytes as text: class, one dot, detail.
#![tactic(auto)]

ghost use Rattle.std.specs.Prelude.{◌≡◌};
ghost use Rattle.decimal.specs.Decimal.{decimal_of};
ghost use Rattle.code_text.specs.CodeText.{numeral_at, dot_in, code_in, code_text, code_of};

use refusal::Refusal;

// The code byte of a text, as "2.05".
pub fn code_in(text: &[u8]) -> Result<u8, Refusal>
    ensures { code_of result ≡ code_in text.now }
{
    let dot = dot_in(text);
    let class = numeral(&text[..dot], 7).ok_or(Refusal::BadText)?;
    if text.len() <= dot {
        return Err(Refusal::BadText);
    }
    let after = dot + 1;
    let detail = numeral(&text[after..], 31).ok_or(Refusal::BadText)?;
    Ok((class * 32 + detail) as u8)
}

// The text of a code byte.
pub fn code_text(byte: u8) -> [u8; 4]
    ensures { result ≡ code_text byte }
{
    let detail = byte % 32;
    [
        b'0' + byte / 32,
        b'.',
        b'0' + detail / 10,
        b'0' + detail % 10,
    ]
}

// Where the first dot stands, or the length where there is none.
fn dot_in(text: &[u8]) -> usize
    ensures { result ≡ dot_in text.now }
{
    for i in 0..text.len() {
        if text[i] == b'.' {
            return i;
        }
    }
    text.len()
}

// A number of at most `most`, with or without a plus sign.
fn numeral(text: &[u8], most: u64) -> Option<u64>
    ensures { decimal_of result ≡ numeral_at most text.now }
{
    if text.len() == 0 {
        return None;
    }
    if text[0] == b'+' {
        return decimal::decimal_in(&text[1..], most);
    }
    decimal::decimal_in(text, most)
}
