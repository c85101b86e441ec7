// Convenience types for option values: uints of four widths, and text.
#![tactic(auto)]

ghost use Rattle.std.specs.Prelude.{◌≡◌, ℕ, ◌<◌, ◌≤◌, ◌%◌, ◌^◌, length};
ghost use Rattle.std.proofs.Common.{lit≤};
ghost use Rattle.rfc.specs.Uint.{uint};
ghost use Rattle.refusal.specs.Answer.{written, fitted, after};
ghost use Rattle.option_value.specs.Uint.{ReadsUint, uint_of, read_by};
ghost use Rattle.option_value.specs.Text.{read_text, text_part, write_text, text_of};

use placing::{put_bytes, put_uint, uint_length};
use refusal::Refusal;
use utf8::is_text;

// A number that was read, and how many leading zero bytes were. Every reader of a uint goes through this type.
#[derive(Clone, Copy)]
pub struct Uint {
    pub number: u64,
    pub zeros: usize,
}

// Writes the shortest bytes of a number, high byte first; zero is no bytes.
pub fn option_from_uint(value: u64, out: &mut [u8]) -> Result<usize, Refusal>
    ensures result_value { written result ≡ fitted (length out.old) (uint 8 value) }
    ensures out_after { out.new ≡ after (fitted (length out.old) (uint 8 value)) 0 (uint 8 value) out.old }
{
    if out.len() < uint_length(value) {
        return Err(Refusal::NoRoom);
    }
    Ok(put_uint(out, 0, value))
}

// Reads a value of at most `value_size` bytes, and never more than 8. Leading zeros are read, and count as bytes: they are
// what the value has besides the shortest bytes of its number.
pub fn option_to_uint(encoded: &[u8], value_size: usize) -> Result<Uint, Refusal>
    ensures { ReadsUint value_size encoded.now (uint_of result) }
{
    if value_size < encoded.len() {
        return Err(Refusal::BadUint);
    }
    if 8 < encoded.len() {
        return Err(Refusal::BadUint);
    }
    let mut value: u64 = 0;
    for byte in encoded {
        value = value * 256 + *byte as u64;
    }
    let zeros = encoded.len() - uint_length(value);
    Ok(Uint {
        number: value,
        zeros,
    })
}

// An unsigned number of a fixed width: how many bytes the type has, and the way to and from the widest of them.
pub trait Width: Copy {
    const BYTES: usize;

    ghost BYTES: { ℕ };

    // The number that a value is.
    ghost number_of: { Self → ℕ };

    // Its number, in the widest.
    fn widened(self) -> u64
        ensures result_value { result ≡ number_of self }
        ensures fits { result < 256 ^ BYTES };

    // The value of a number's low bytes, which is its own where it has no more than those.
    fn narrowed(number: u64) -> Self
        ensures { number_of result ≡ number % 256 ^ BYTES };

    // No width is over that of the widest.
    ghost at_most_eight: { BYTES ≤ 8 };
}

impl Width for u8 {
    const BYTES: usize = 1;

    ghost BYTES = { 1 };

    ghost number_of = { λ n. n };

    fn widened(self) -> u64 {
        self as u64
    }

    fn narrowed(number: u64) -> u8 {
        (number % 256) as u8
    }

    ghost at_most_eight = { lit≤ tt };
}

impl Width for u16 {
    const BYTES: usize = 2;

    ghost BYTES = { 2 };

    ghost number_of = { λ n. n };

    fn widened(self) -> u64 {
        self as u64
    }

    fn narrowed(number: u64) -> u16 {
        (number % 65536) as u16
    }

    ghost at_most_eight = { lit≤ tt };
}

impl Width for u32 {
    const BYTES: usize = 4;

    ghost BYTES = { 4 };

    ghost number_of = { λ n. n };

    fn widened(self) -> u64 {
        self as u64
    }

    fn narrowed(number: u64) -> u32 {
        (number % 4294967296) as u32
    }

    ghost at_most_eight = { lit≤ tt };
}

impl Width for u64 {
    const BYTES: usize = 8;

    ghost BYTES = { 8 };

    ghost number_of = { λ n. n };

    fn widened(self) -> u64 {
        self
    }

    fn narrowed(number: u64) -> u64 {
        number
    }

    ghost at_most_eight = { lit≤ tt };
}

// A uint of at most the bytes of its type.
#[derive(Clone, Copy)]
pub struct OptionValue<T>(pub T);

pub type OptionValueU8 = OptionValue<u8>;

pub type OptionValueU16 = OptionValue<u16>;

pub type OptionValueU32 = OptionValue<u32>;

pub type OptionValueU64 = OptionValue<u64>;

// What a value was read as, and how many leading zero bytes it has.
#[derive(Clone, Copy)]
pub struct Padded<T> {
    pub value: OptionValue<T>,
    pub zeros: usize,
}

impl<T: Width> OptionValue<T> {
    // Writes the shortest bytes, high byte first; zero is no bytes.
    pub fn into_bytes(self, out: &mut [u8]) -> Result<usize, Refusal>
        ensures result_value { written result ≡ fitted (length out.old) (uint T.BYTES (T.number_of self.0)) }
        ensures out_after { out.new ≡ after (fitted (length out.old) (uint T.BYTES (T.number_of self.0))) 0 (uint T.BYTES (T.number_of self.0)) out.old }
    {
        option_from_uint(self.0.widened(), out)
    }

    // Reads a value that is no longer than the width; leading zeros are read and counted.
    pub fn try_from(value: &[u8]) -> Result<Padded<T>, Refusal>
        ensures { ReadsUint T.BYTES value.now (read_by T.number_of result) }
    {
        let read = option_to_uint(value, T::BYTES)?;
        Ok(Padded {
            value: OptionValue(T::narrowed(read.number)),
            zeros: read.zeros,
        })
    }
}

// Accepts a value that is text. No answer can hold the text's bytes here, so a value is judged, and `text_part` hands it back.
pub fn option_to_text(value: &[u8]) -> Result<(), Refusal>
    ensures { text_of result ≡ read_text value.now }
{
    if is_text(value) {
        Ok(())
    } else {
        Err(Refusal::BadText)
    }
}

// The value where it is text, else an empty part of it.
pub fn text_part(value: &[u8]) -> &[u8]
    ensures result_value { result.now ≡ text_part value.now }
    ensures ref_ptr_value { result.ref_ptr ≡ value.entry.ref_ptr }
{
    if is_text(value) {
        return value;
    }
    &value[0..0]
}

// Writes a value that is text.
pub fn option_from_text(value: &[u8], out: &mut [u8]) -> Result<usize, Refusal>
    ensures result_value { written result ≡ write_text (length out.old) value.now }
    ensures out_after { out.new ≡ after (write_text (length out.old) value.now) 0 value.now out.old }
{
    if !is_text(value) {
        return Err(Refusal::BadText);
    }
    if out.len() < value.len() {
        return Err(Refusal::NoRoom);
    }
    Ok(put_bytes(out, 0, value))
}
