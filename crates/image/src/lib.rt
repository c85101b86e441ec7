// An image in units of 16 bytes, each held or missing: whether a list of what is held fits it, and whether some units are all
// the same.
#![tactic(auto)]

ghost use Rattle.std.specs.Prelude.{◌≡◌, ◌-◌};
ghost use Rattle.ground.specs.Part.{part};
ghost use Rattle.image.specs.Image.{fits, alike};

// What units are that `all_are` asks about.
pub const MISSING: bool = true;

pub const HELD: bool = false;

// Whether size and held list fit.
pub fn is_image(size: usize, held: &[u8]) -> bool
    ensures { result ≡ fits size held.now }
{
    if size < 1 {
        return false;
    }
    if 1048576 < size {
        return false;
    }
    held.len() == (size + 15) / 16
}

// Whether the units from one to before another are all missing, or all held. Those that don't exist aren't asked.
pub fn all_are(missing: bool, held: &[u8], from: usize, to: usize) -> bool
    ensures { result ≡ alike missing (part held.now from (to - from)) }
{
    for unit in from..to.min(held.len()) {
        if (held[unit] == 0) != missing {
            return false;
        }
    }
    true
}
