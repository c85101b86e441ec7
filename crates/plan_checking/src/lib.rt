// The check of a plan: whether a list of strict block values fetches each missing unit of an image once, and nothing else.
#![tactic(auto)]

ghost use Rattle.std.specs.Prelude.{◌<◌};
ghost use Rattle.rfc.specs.Block.{Valid, block_of};
ghost use Rattle.plan_checking.specs.Plan.{start, stop, Checks};
ghost use Rattle.plan_checking.specs.Accepted.{Flagged};
ghost use Rattle.plan_checking.specs.Steps.{Decides, Next, Width, At};

use image::{HELD, MISSING, all_are, is_image};
use refusal::Refusal;

// Accepts a plan, or refuses it. A block has to start where the block before it stops or later: so each unit is looked at
// once at most, in the gap before a block, in a block or behind the last.
pub fn check(size: usize, held: &[u8], plan: &[u32]) -> Result<(), Refusal>
    ensures { Checks size held.now plan.now result }
{
    if !is_image(size, held) {
        return Err(Refusal::BadPlan);
    }
    let mut at = 0;
    for value in plan {
        if !follows(size, held, at, *value) {
            return Err(Refusal::BadPlan);
        }
        at = stop_of(*value);
    }
    if !all_are(HELD, held, at, held.len()) {
        return Err(Refusal::BadPlan);
    }
    Ok(())
}

// Whether a value may be the next in a plan whose blocks so far stop at the unit `at`.
fn follows(size: usize, held: &[u8], at: usize, value: u32) -> bool
    ensures { Decides (Next size held.now at (block_of value)) result }
{
    if !is_strict(value) {
        return false;
    }
    let start = start_of(value);
    let stop = stop_of(value);
    if start < at {
        return false;
    }
    if held.len() <= start {
        return false;
    }
    if !is_flagged(size, stop, value) {
        return false;
    }
    if !all_are(HELD, held, at, start) {
        return false;
    }
    all_are(MISSING, held, start, stop)
}

// Whether the value is that of a strict block.
fn is_strict(value: u32) -> bool
    ensures { Decides (Valid (block_of value)) result }
{
    if value % 8 == 7 {
        return false;
    }
    value < 16777216
}

// Whether more is true just where the block stops before the image ends.
fn is_flagged(size: usize, end: usize, value: u32) -> bool
    requires { At (stop (block_of value)) end }
    ensures { Decides (Flagged size (block_of value)) result }
{
    if end * 16 < size {
        return value / 8 % 2 == 1;
    }
    value / 8 % 2 != 1
}

// The first unit of a block, and the first after it.
fn start_of(value: u32) -> usize
    ensures { At (start (block_of value)) result }
{
    (value / 16) as usize * width_of(value % 8)
}

fn stop_of(value: u32) -> usize
    ensures { At (stop (block_of value)) result }
{
    (value / 16 + 1) as usize * width_of(value % 8)
}

// 2 to an exponent.
fn width_of(exponent: u32) -> usize
    requires { exponent < 8 }
    ensures { Width exponent result }
{
    1 << exponent
}
