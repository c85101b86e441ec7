// A datagram read straight into a lent slice of numbers, the flat form of its packet, with no packet made of it: a first walk
// judges the datagram and counts its options, and a second one puts them and judges nothing again.
#![tactic(auto)]

ghost use Rattle.std.specs.Prelude.{◌≡◌, Bool, ◌+◌, ◌*◌, ◌≤◌, ◌<◌, length, set};
ghost use Rattle.std.proofs.lemmas.List.Edits.{sets};
ghost use Rattle.refusal.specs.Answer.{outcome, after};
ghost use Rattle.option_reading.specs.Answers.{ByteAt, value_of};
ghost use Rattle.flat.specs.Flat.{flat_records};
ghost use Rattle.scanning.specs.Scanning.{extent_of, judged, scanned, flat_read};
ghost use Rattle.scanning.specs.Plain.{extra, plainly, head_in, start, options_from, spans, Places, stands, Open};

use option_reading::{Extension, Found, place_at};
use packet::limits::MAX_OPTIONS;
use reading::{longest_value, marker_alone, opening};
use refusal::Refusal;

// What a datagram holds: how many options, where they end, and where the payload starts.
#[derive(Clone, Copy)]
pub struct Extent {
    pub count: usize,
    pub end: usize,
    pub payload: usize,
}

// Judges a datagram as reading does, with no packet made.
pub fn judge(strict: bool, datagram: &[u8]) -> Result<Extent, Refusal>
    ensures { extent_of result ≡ judged strict datagram.now }
{
    let raw = opening(strict, datagram)?;
    let start = 4 + raw.token_length() as usize;
    if option_at(datagram, start) {
        let mut unnoted = [0u32; 0];
        return walked(strict, datagram, start, &mut unnoted);
    }
    bare(strict, datagram, start)
}

// Whether an option stands at a position, and neither the datagram's end nor the payload marker.
fn option_at(buf: &[u8], idx: usize) -> bool
    ensures { result ≡ stands buf.now idx }
{
    if buf.len() <= idx {
        return false;
    }
    buf[idx] != 255
}

// A message with no options, whose walk ends where it starts.
fn bare(strict: bool, buf: &[u8], start: usize) -> Result<Extent, Refusal>
    requires { (start ≤ length buf.now) × (length buf.now ≤ 70000) × (stands buf.now start ≡ Bool.false) }
    ensures { extent_of result ≡ spans strict buf.now start }
{
    if buf.len() <= start {
        return Ok(Extent {
            count: 0,
            end: start,
            payload: start,
        });
    }
    if marker_alone(strict, true, start + 1, buf.len()) {
        return Err(Refusal::MarkerAlone);
    }
    Ok(Extent {
        count: 0,
        end: start,
        payload: start + 1,
    })
}

// The walk over the options, which notes the places of the first of them, as many as there is room for: who only judges lends none.
// `place_at` is put into it by the compiler only while nothing else of a linked unit calls it.
fn walked(strict: bool, buf: &[u8], start: usize, places: &mut [u32]) -> Result<Extent, Refusal>
    requires { (start ≤ length buf.now) × (length buf.now ≤ 70000) }
    ensures result_value { extent_of result ≡ spans strict buf.now start }
    ensures places { Places start (options_from strict buf.now start) places.new }
{
    let most = longest_value(strict);
    let mut count = 0;
    let mut number: u16 = 0;
    let mut idx = start;
    loop {
        match place_at(most, buf, number, idx)? {
            Found::End { marked, payload } => {
                if marker_alone(strict, marked, payload, buf.len()) {
                    return Err(Refusal::MarkerAlone);
                }
                return Ok(Extent {
                    count,
                    end: idx,
                    payload,
                });
            }
            Found::Option(r) => {
                if MAX_OPTIONS <= count {
                    return Err(Refusal::TooManyOptions);
                }
                note(places, count, idx as u32);
                count = count + 1;
                number = r.number;
                idx = r.start as usize + r.len as usize;
            }
        }
    }
}

// Notes where an option stands, if there is room for it.
fn note(places: &mut [u32], count: usize, idx: u32)
    ensures { places.new ≡ set places.old count idx }
{
    if count < places.len() {
        places[count] = idx;
    }
}

// Puts the flat form of a datagram's packet at the start of the output. On a refusal the output is as it was; where it has too
// little room that is NoRoom (12).
pub fn scan(strict: bool, datagram: &[u8], out: &mut [u32]) -> Result<(), Refusal>
    ensures result_value { outcome result ≡ scanned strict (length out.old) datagram.now }
    ensures out_after { out.new ≡ after (scanned strict (length out.old) datagram.now) 0 (flat_read strict datagram.now) out.old }
{
    let raw = opening(strict, datagram)?;
    let start = 4 + raw.token_length() as usize;
    if option_at(datagram, start) {
        return scan_options(strict, datagram, start, out);
    }
    scan_bare(strict, datagram, start, out)
}

// The same of a datagram whose options start at a position.
fn scan_options(strict: bool, datagram: &[u8], start: usize, out: &mut [u32]) -> Result<(), Refusal>
    requires { Open strict datagram.now start }
    ensures result_value { outcome result ≡ scanned strict (length out.old) datagram.now }
    ensures out_after { out.new ≡ after (scanned strict (length out.old) datagram.now) 0 (flat_read strict datagram.now) out.old }
{
    let mut places = [0u32; MAX_OPTIONS];
    let extent = walked(strict, datagram, start, &mut places)?;
    let count = extent.count;
    if out.len() < 11 + 4 * count {
        return Err(Refusal::NoRoom);
    }
    put_head(out, datagram, extent.payload, count);
    put_options(out, strict, datagram, &places, count);
    Ok(())
}

// The same where there are none: no places are noted, whose array takes longer to clear than all the rest.
fn scan_bare(strict: bool, datagram: &[u8], start: usize, out: &mut [u32]) -> Result<(), Refusal>
    requires { Open strict datagram.now start × (stands datagram.now start ≡ Bool.false) }
    ensures result_value { outcome result ≡ scanned strict (length out.old) datagram.now }
    ensures out_after { out.new ≡ after (scanned strict (length out.old) datagram.now) 0 (flat_read strict datagram.now) out.old }
{
    let extent = bare(strict, datagram, start)?;
    if out.len() < 11 {
        return Err(Refusal::NoRoom);
    }
    put_head(out, datagram, extent.payload, extent.count);
    Ok(())
}

// The numbers before the options: the code is the byte as it stands, so no table of classes is asked.
fn put_head(out: &mut [u32], buf: &[u8], payload: usize, count: usize)
    requires { (11 ≤ length out.old) × (4 ≤ length buf.now) × (length buf.now ≤ 70000) × (payload ≤ length buf.now) × (count ≤ 128) }
    ensures { out.new ≡ sets out.old 0 (head_in buf.now payload count) }
{
    let first = byte_at(buf, 0);
    out[0] = (first / 64) as u32;
    out[1] = (first / 16 % 4) as u32;
    out[2] = byte_at(buf, 1) as u32;
    out[3] = (byte_at(buf, 2) * 256 + byte_at(buf, 3)) as u32;
    out[4] = 0;
    out[5] = 4;
    out[6] = (first % 16) as u32;
    out[7] = 0;
    out[8] = payload as u32;
    out[9] = (buf.len() - payload) as u32;
    out[10] = count as u32;
}

// Number, home, start and length of each option of a datagram that is known to be good, found where it stands, so that no
// option waits for the one before. The mode is there for the promise alone.
fn put_options<'a>(
    out: &mut [u32],
    strict: bool,
    buf: &'a [u8],
    places: &'a [u32; MAX_OPTIONS],
    count: usize,
)
    requires buf_in_bounds { (start buf.now ≤ length buf.now) × (length buf.now ≤ 70000) × (11 + 4 * count ≤ length out.old) × (count ≤ 128) × (count ≤ length places.now) }
    requires count_value { (count ≡ length (options_from strict buf.now (start buf.now))) × Places (start buf.now) (options_from strict buf.now (start buf.now)) places.now }
    ensures { out.new ≡ sets out.old 11 (flat_records (options_from strict buf.now (start buf.now))) }
{
    let mut number = 0;
    for i in 0..count {
        let idx = places[i] as usize;
        let byte = byte_at(buf, idx);
        let delta = unjudged(buf, idx + 1, byte / 16);
        let length = unjudged(buf, delta.next, byte % 16);
        number = number + delta.value;
        let at = 11 + 4 * i;
        out[at] = number as u32;
        out[at + 1] = 0;
        out[at + 2] = length.next as u32;
        out[at + 3] = length.value as u32;
    }
}

// The number of a nibble with its extension at a position, of an option that is known to be good.
fn unjudged(buf: &[u8], idx: usize, nibble: usize) -> Extension
    requires { (idx + extra nibble ≤ length buf.now) × (nibble < 256) }
    ensures { value_of result ≡ plainly buf.now idx nibble }
{
    if nibble < 13 {
        return Extension {
            value: nibble,
            next: idx,
        };
    }
    if nibble == 13 {
        return Extension {
            value: 13 + byte_at(buf, idx),
            next: idx + 1,
        };
    }
    Extension {
        value: 269 + (byte_at(buf, idx) * 256 + byte_at(buf, idx + 1)),
        next: idx + 2,
    }
}

// A byte at a position that is known to be inside: option_reading's would test it once more for each byte of a head.
fn byte_at(buf: &[u8], idx: usize) -> usize
    requires { idx < length buf.now }
    ensures { ByteAt buf.now idx result }
{
    buf[idx] as usize
}
