// Bytes moved within the slice that they are in.
#![tactic(auto)]

ghost use Rattle.std.specs.Prelude.{◌-◌};
ghost use Rattle.ground.specs.Part.{part};
ghost use Rattle.placing.specs.Put.{Put};

use placing::put_bytes;

// How many bytes are held at a time.
const PIECE: usize = 4096;

// Moves the bytes from one place up to another to the front, and answers how many these are; what lies past the end isn't there. A
// slice isn't lent twice, so each piece goes by way of an array.
pub fn move_to_front(bytes: &mut [u8], start: usize, end: usize) -> usize
    ensures { Put bytes.old 0 (part bytes.old start (end - start)) result bytes.new }
{
    let stop = end.min(bytes.len());
    if stop < start {
        return 0;
    }
    let all = stop - start;
    let mut held = [0u8; PIECE];
    let mut i = 0;
    while i < all {
        let count = (all - i).min(PIECE);
        put_bytes(&mut held, 0, &bytes[start + i..start + i + count]);
        put_bytes(bytes, i, &held[..count]);
        i = i + count;
    }
    all
}
