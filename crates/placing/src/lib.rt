// Bytes and shortest uints put into a lent output at a place, with the place after them as the answer. What no longer fits into
// the output is cut off.
#![tactic(auto)]

ghost use Rattle.std.specs.Prelude.{◌≡◌, [], ◌∷◌, ◌+◌, ◌-◌, ◌*◌, ◌≤◌, ◌<◌, min, length, take};
ghost use Rattle.rfc.specs.Uint.{uint};
ghost use Rattle.placing.specs.Put.{Puts, Put};

// How many bytes a copy holds at a time. The compiler makes one move of memory of each piece, and no array; one that kept the array
// would need as many bytes of the stack.
const PIECE: usize = 4096;

// How many bytes a run has.
pub const RUN: usize = 32;

// Puts one byte.
pub fn put_byte(out: &mut [u8], at: usize, byte: u8) -> usize
    ensures { Puts out.old at (byte ∷ []) result out.new }
{
    if at < out.len() {
        out[at] = byte;
        return at + 1;
    }
    at
}

// How many of so many bytes go into an output of this size from a place on.
fn fitting(size: usize, at: usize, count: usize) -> usize
    ensures { result ≡ min (size - at) count }
{
    size.saturating_sub(at).min(count)
}

// Puts bytes as they are: the one copy of bytes that all crates use. The room is found first, so that what follows is plain.
pub fn put_bytes(out: &mut [u8], at: usize, bytes: &[u8]) -> usize
    ensures { Puts out.old at bytes.now result out.new }
{
    let count = fitting(out.len(), at, bytes.len());
    if count <= 16 {
        return put_few(out, at, &bytes[..count]);
    }
    if count <= 64 {
        return put_some(out, at, &bytes[..count]);
    }
    put_many(out, at, &bytes[..count])
}

// Puts the first 32 of some bytes. Their number is known to the compiler, so that no branch depends on it: who has more room than
// a value takes, and puts over what is too much, copies it faster by this than by its length.
pub fn put_run(out: &mut [u8], at: usize, bytes: &[u8]) -> usize
    ensures { Puts out.old at (take 32 bytes.now) result out.new }
{
    if bytes.len() < RUN {
        return put_bytes(out, at, bytes);
    }
    if fitting(out.len(), at, RUN) < RUN {
        return put_bytes(out, at, &bytes[..RUN]);
    }
    put_piece(out, at, &bytes[..RUN])
}

// At most 16 bytes: two pieces of one length, which may overlap, so that the compiler knows how long each is.
fn put_few(out: &mut [u8], at: usize, bytes: &[u8]) -> usize
    requires { (length bytes.now ≤ length out.old - at) × (length bytes.now ≤ 16) }
    ensures { Put out.old at bytes.now result out.new }
{
    if 8 <= bytes.len() {
        return put_ends(out, at, bytes, 8);
    }
    if 4 <= bytes.len() {
        return put_ends(out, at, bytes, 4);
    }
    if 2 <= bytes.len() {
        return put_ends(out, at, bytes, 2);
    }
    if 1 <= bytes.len() {
        return put_ends(out, at, bytes, 1);
    }
    at
}

// 17 to 64 bytes, by two pieces of one length, as `put_few` does.
fn put_some(out: &mut [u8], at: usize, bytes: &[u8]) -> usize
    requires { (length bytes.now ≤ length out.old - at) × (16 ≤ length bytes.now) × (length bytes.now ≤ 64) }
    ensures { Put out.old at bytes.now result out.new }
{
    if 32 <= bytes.len() {
        return put_ends(out, at, bytes, 32);
    }
    put_ends(out, at, bytes, 16)
}

// The first and the last bytes, so many of each that none is left out.
fn put_ends(out: &mut [u8], at: usize, bytes: &[u8], half: usize) -> usize
    requires { (length bytes.now ≤ length out.old - at) × (half ≤ length bytes.now) × (length bytes.now ≤ 2 * half) × (half ≤ 32) × (1 ≤ half) }
    ensures { Put out.old at bytes.now result out.new }
{
    let last = bytes.len() - half;
    put_piece(out, at, &bytes[..half]);
    put_piece(out, at + last, &bytes[last..])
}

// Any number of bytes, in pieces.
fn put_many(out: &mut [u8], at: usize, bytes: &[u8]) -> usize
    requires { length bytes.now ≤ length out.old - at }
    ensures { Put out.old at bytes.now result out.new }
{
    let all = bytes.len();
    let mut i = 0;
    while i < all {
        let end = piece_end(i, all);
        put_piece(out, at + i, &bytes[i..end]);
        i = end;
    }
    at + all
}

// Where a piece ends that starts here.
fn piece_end(start: usize, count: usize) -> usize
    requires { start < count }
    ensures { (start < result) × (result ≤ count) × (result ≤ start + 4096) }
{
    if count - start <= PIECE {
        return count;
    }
    start + PIECE
}

// A copy by way of an array of this function's own: all bytes are read before the first is written, so that the compiler needs
// no test for overlap, and makes one move of memory of both loops and the array.
fn put_piece(out: &mut [u8], at: usize, bytes: &[u8]) -> usize
    requires { (at + length bytes.now ≤ length out.old) × (length bytes.now ≤ 4096) }
    ensures { Put out.old at bytes.now result out.new }
{
    let count = bytes.len();
    let mut held = [0u8; PIECE];
    for i in 0..count {
        held[i] = bytes[i];
    }
    for j in 0..count {
        out[at + j] = held[j];
    }
    at + count
}

// How many bytes the shortest form of a number has.
pub fn uint_length(value: u64) -> usize
    ensures { result ≡ length (uint 8 value) }
{
    let mut rest = value;
    let mut count: usize = 0;
    while 0 < rest {
        rest = rest / 256;
        count = count + 1;
    }
    count
}

// Puts the shortest bytes of a number, high byte first; zero is no bytes. They are found from the last to the first.
pub fn put_uint(out: &mut [u8], at: usize, value: u64) -> usize
    ensures { Puts out.old at (uint 8 value) result out.new }
{
    let mut bytes = [0u8; 8];
    let mut first = 8;
    let mut rest = value;
    while 0 < rest {
        first = first - 1;
        bytes[first] = (rest % 256) as u8;
        rest = rest / 256;
    }
    put_bytes(out, at, &bytes[first..])
}
