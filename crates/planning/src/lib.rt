// Our planner: which blocks to ask for, so that each missing unit of an image is fetched once, in blocks as large as may be.
#![tactic(auto)]

ghost use Rattle.std.specs.Prelude.{◌≡◌, ℕ, ◌<◌, ◌≤◌, length, get_or};
ghost use Rattle.rfc.specs.Block.{block_number};
ghost use Rattle.placing.specs.Put.{Put};
ghost use Rattle.plan_checking.specs.Steps.{Width};
ghost use Rattle.planning.specs.Planner.{block_at, planned, values, Largest, Plans};

use image::{MISSING, all_are, is_image};
use refusal::Refusal;

// The largest block that may start at a unit: its exponent, and how many units it has.
#[derive(Clone, Copy)]
struct Found {
    exponent: u32,
    width: usize,
}

// Writes our plan to the start of the list. One of half as many numbers as there are units, rounded up, is never too short,
// and isn't counted for.
pub fn plan(size: usize, held: &[u8], list: &mut [u32]) -> Result<usize, Refusal>
    ensures { Plans size held.now list.old result list.new }
{
    if !is_image(size, held) {
        return Err(Refusal::BadPlan);
    }
    if (held.len() + 1) / 2 <= list.len() {
        return Ok(put_blocks(size, held, list));
    }
    if list.len() < count_blocks(held) {
        return Err(Refusal::NoRoom);
    }
    Ok(put_blocks(size, held, list))
}

// Writes the values of our plan, and says how many they are.
fn put_blocks(size: usize, held: &[u8], list: &mut [u32]) -> usize
    requires { (length held.now ≤ 65536) × (length (planned size held.now) ≤ length list.old) }
    ensures { Put list.old 0 (values size held.now) result list.new }
{
    let mut unit = 0;
    let mut count = 0;
    while unit < held.len() {
        if held[unit] == 0 {
            let block = largest_at(held, unit);
            let width = block.width;
            list[count] = value_at(size, unit, width, block.exponent);
            count += 1;
            unit += width;
        } else {
            unit += 1;
        }
    }
    count
}

// How many blocks our plan has.
fn count_blocks(held: &[u8]) -> usize
    requires { length held.now ≤ 65536 }
    ensures { (size : ℕ) → result ≡ length (planned size held.now) }
{
    let mut unit = 0;
    let mut count = 0;
    while unit < held.len() {
        if held[unit] == 0 {
            let block = largest_at(held, unit);
            unit += block.width;
            count += 1;
        } else {
            unit += 1;
        }
    }
    count
}

// Finds the largest block that may start at a missing unit. It grows by doubling, and only its new half is looked at: so a
// block of some units costs at most twice as many looks, one for each of its own and one for each of the half that fails.
fn largest_at(held: &[u8], unit: usize) -> Found
    requires { (unit < 65536) × (get_or held.now unit 0 ≡ 0) }
    ensures { Largest held.now unit result.exponent result.width }
{
    let mut width = 1;
    for exponent in 0..6 {
        let double = width * 2;
        if unit % double != 0 {
            return Found { exponent, width };
        }
        if !all_are(MISSING, held, unit + width, unit + double) {
            return Found { exponent, width };
        }
        width = double;
    }
    Found { exponent: 6, width }
}

// The value of the block of this width that starts at a unit.
fn value_at(size: usize, unit: usize, width: usize, exponent: u32) -> u32
    requires { (unit < 65536) × Width exponent width × (exponent ≤ 6) }
    ensures { result ≡ block_number (block_at size unit exponent) }
{
    let num = (unit / width) as u32;
    if (unit + width) * 16 < size {
        return num * 16 + 8 + exponent;
    }
    num * 16 + exponent
}
