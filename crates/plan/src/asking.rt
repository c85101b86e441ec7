// A line: an image, what is held of it, and maybe a plan.
use option_value::OptionValueU32;
use words::Line;

// An image of a size, how many bytes its held list has, and how many values of a plan are given, if one is.
#[derive(Clone, Copy)]
pub struct Asked {
    pub size: usize,
    pub units: usize,
    pub given: Option<usize>,
}

// image SIZE held HELD, or image SIZE held HELD check OPTION ..
pub fn ask(text: &[u8], held: &mut [u8], list: &mut [u32]) -> Option<Asked> {
    let mut line = Line::new(text);
    line.past(b"image")?;
    let size = line.number::<u32>(b' ')?;
    line.past(b" held")?;
    let units = hold(&mut line, held, units_of(size))?;
    let given = if line.is_at(b'\n') {
        None
    } else {
        line.past(b" check")?;
        Some(values(&mut line, list)?)
    };
    line.finished()?;
    Some(Asked {
        size: size as usize,
        units,
        given,
    })
}

// How many units an image has.
pub fn units_of(size: u32) -> usize {
    size.div_ceil(16) as usize
}

// Puts the held list of a word, and answers how many bytes it has: `none`, `all`, units as ranges, or the bytes themselves, which are
// none where they are more than there is room for.
fn hold(line: &mut Line, held: &mut [u8], units: usize) -> Option<usize> {
    let mut word = *line;
    if word.past(b" bytes").is_some() {
        *line = word;
        return Some(line.bytes(b':')?.put(held, 0).unwrap_or(0));
    }
    let room = held.len().min(units);
    held[..room].fill(0);
    let mut word = *line;
    word.after(b' ')?;
    match word.name() {
        b"none" => *line = word,
        b"all" => {
            held[..room].fill(1);
            *line = word;
        }
        _ => hold_ranges(line, held, units)?,
    }
    Some(units)
}

// Marks the units of ranges, as 0-3,7; none if there is no such unit.
fn hold_ranges(line: &mut Line, held: &mut [u8], units: usize) -> Option<()> {
    let mut before = b' ';
    for _ in 0..line.len() {
        let first = line.number::<u16>(before)? as usize;
        let last = if line.is_at(b'-') {
            line.number::<u16>(b'-')? as usize
        } else {
            first
        };
        if units <= last {
            return None;
        }
        if let Some(range) = held.get_mut(first..last + 1) {
            range.fill(1);
        }
        if !line.is_at(b',') {
            return Some(());
        }
        before = b',';
    }
    None
}

// Puts the values of options that end a line, and answers how many there are.
fn values(line: &mut Line, list: &mut [u32]) -> Option<usize> {
    let mut count = 0usize;
    for value in list {
        if !line.is_at(b' ') {
            break;
        }
        *value = option(line)?;
        count = count.saturating_add(1);
    }
    Some(count)
}

// An option as hexadecimal digits. More than four bytes find no place, and stand for a value that is no block's.
fn option(line: &mut Line) -> Option<u32> {
    let mut bytes = [0u8; 4];
    let given = line.bytes(b' ')?;
    let Ok(end) = given.put(&mut bytes, 0) else {
        return Some(u32::MAX);
    };
    match OptionValueU32::try_from(bytes.get(..end)?) {
        Ok(padded) => Some(padded.value.0),
        Err(_) => Some(u32::MAX),
    }
}
