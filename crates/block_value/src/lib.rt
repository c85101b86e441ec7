// The value of a Block option, plain as deployed peers have it and strict as RFC 7959 has it.
#![tactic(auto)]

ghost use Rattle.std.specs.Prelude.{◌≡◌, ◌<◌, length};
ghost use Rattle.rfc.specs.Block.{block_number, block_of, block_bytes};
ghost use Rattle.ground.specs.Table.{listed};
ghost use Rattle.refusal.specs.Answer.{written, after};
ghost use Rattle.block_value.specs.Answers.{meant, built, sized};
ghost use Rattle.block_value.specs.Size.{Floor, exponent_of, size_up_to};
ghost use Rattle.block_value.specs.Plain.{plain_new, plain_bytes, plain_writing, ReadsPlain};
ghost use Rattle.block_value.specs.Strict.{strict_sizes, strict_new, strict_writing, ReadsStrict};

use option_value::{OptionValue, option_from_uint, option_to_uint};
use refusal::Refusal;

// The block option value. A strict number has 20 bits, a plain one at most 16.
#[derive(Clone, Copy)]
pub struct BlockValue {
    pub num: u32,
    pub more: bool,
    pub size_exponent: u8,
}

// A block that was read, and how many leading zero bytes its value has.
#[derive(Clone, Copy)]
pub struct BlockRead {
    pub block: BlockValue,
    pub zeros: usize,
}

// The sizes of the exponents 0 to 7.
const SIZES: [usize; 8] = [16, 32, 64, 128, 256, 512, 1024, 2048];

impl BlockValue {
    // Builds a plain block: the exponent is that of the largest block that is not above the size.
    pub fn new(num: usize, more: bool, size: usize) -> Result<BlockValue, Refusal>
        ensures { built result ≡ plain_new num more size }
    {
        if size == 0 {
            return Err(Refusal::BadBlockSize);
        }
        if 4095 < size {
            return Err(Refusal::BadBlockSize);
        }
        if 65535 < num {
            return Err(Refusal::BlockNumber);
        }
        Ok(BlockValue {
            num: num as u32,
            more,
            size_exponent: exponent_of(size),
        })
    }

    // The size of a plain block.
    pub fn size(self) -> Result<usize, Refusal>
        ensures { sized result ≡ size_up_to 7 self.size_exponent }
    {
        size_up_to(7, self.size_exponent)
    }

    // Writes the plain value, which has 12 bits of the number and 3 of the exponent.
    pub fn into_bytes(self, out: &mut [u8]) -> Result<usize, Refusal>
        ensures result_value { written result ≡ plain_writing (length out.old) (meant self) }
        ensures out_after { out.new ≡ after (plain_writing (length out.old) (meant self)) 0 (plain_bytes (meant self)) out.old }
    {
        let kept = BlockValue {
            num: self.num % 4096,
            more: self.more,
            size_exponent: self.size_exponent % 8,
        };
        OptionValue(scalar(kept) as u16).into_bytes(out)
    }

    // Reads a plain value.
    pub fn try_from(value: &[u8]) -> Result<BlockRead, Refusal>
        ensures { ReadsPlain value.now result }
    {
        let read = option_to_uint(value, 2)?;
        Ok(BlockRead {
            block: block_of(read.number as u32),
            zeros: read.zeros,
        })
    }

    // Builds a strict block, of exactly the size.
    pub fn new_strict(num: usize, more: bool, size: usize) -> Result<BlockValue, Refusal>
        ensures { built result ≡ strict_new num more size }
    {
        if !is_strict_size(size) {
            return Err(Refusal::BadBlockSize);
        }
        if 1048575 < num {
            return Err(Refusal::BlockNumber);
        }
        Ok(BlockValue {
            num: num as u32,
            more,
            size_exponent: exponent_of(size),
        })
    }

    // The size of a strict block.
    pub fn size_strict(self) -> Result<usize, Refusal>
        ensures { sized result ≡ size_up_to 6 self.size_exponent }
    {
        size_up_to(6, self.size_exponent)
    }

    // Writes the strict value.
    pub fn into_bytes_strict(self, out: &mut [u8]) -> Result<usize, Refusal>
        ensures result_value { written result ≡ strict_writing (length out.old) (meant self) }
        ensures out_after { out.new ≡ after (strict_writing (length out.old) (meant self)) 0 (block_bytes (meant self)) out.old }
    {
        if 6 < self.size_exponent {
            return Err(Refusal::BadBlockSize);
        }
        if 1048575 < self.num {
            return Err(Refusal::BlockNumber);
        }
        option_from_uint(scalar(self) as u64, out)
    }

    // Reads a strict value.
    pub fn try_from_strict(value: &[u8]) -> Result<BlockRead, Refusal>
        ensures { ReadsStrict value.now result }
    {
        let read = option_to_uint(value, 3)?;
        let block = block_of(read.number as u32);
        if block.size_exponent == 7 {
            return Err(Refusal::BadBlockSize);
        }
        Ok(BlockRead {
            block,
            zeros: read.zeros,
        })
    }
}

// Finds the largest power of 2 that does not exceed `target`.
fn largest_power_of_2_not_in_excess(target: usize) -> usize
    requires { 0 < target }
    ensures { Floor target result }
{
    let mut power = 0;
    let mut rest = target;
    while 1 < rest {
        rest = rest / 2;
        power += 1;
    }
    power
}

// The exponent of a size.
fn exponent_of(size: usize) -> u8
    requires { (0 < size) × (size < 4096) }
    ensures { result ≡ exponent_of size }
{
    let power = largest_power_of_2_not_in_excess(size);
    if power < 4 {
        return 0;
    }
    (power - 4) as u8
}

// Whether a strict block can have the size.
fn is_strict_size(size: usize) -> bool
    ensures { result ≡ listed size strict_sizes }
{
    matches!(size, 16 | 32 | 64 | 128 | 256 | 512 | 1024)
}

// The size of an exponent, none above the largest exponent.
fn size_up_to(largest: u8, exponent: u8) -> Result<usize, Refusal>
    requires { largest < 8 }
    ensures { sized result ≡ size_up_to largest exponent }
{
    if largest < exponent {
        return Err(Refusal::BadBlockSize);
    }
    let i = exponent as usize;
    Ok(SIZES[i])
}

// The option's value as a number.
fn scalar(block: BlockValue) -> u32
    requires { (block.num < 1048576) × (block.size_exponent < 8) }
    ensures { result ≡ block_number (meant block) }
{
    block.num * 16 + block.more as u32 * 8 + block.size_exponent as u32
}

// The block that a number stands for.
fn block_of(scalar: u32) -> BlockValue
    ensures { meant result ≡ block_of scalar }
{
    BlockValue {
        num: scalar / 16,
        more: scalar / 8 % 2 == 1,
        size_exponent: (scalar % 8) as u8,
    }
}
