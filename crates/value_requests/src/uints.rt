// Requests on uints, of the four widths and of a width that the request names.
use option_value::{OptionValue, Uint, Width};
use output::Page;
use refusal::Refusal;
use telling::{write_refused, write_written, write_zeros};
use words::Line;

fn write_uint(page: &mut Page, uint: Result<Uint, Refusal>) {
    match uint {
        Ok(uint) => {
            page.number(b"number ", uint.number);
            write_zeros(page, uint.zeros);
        }
        Err(why) => write_refused(page, why),
    }
}

// uint-read WIDTH HEX
pub fn uint_read(line: &mut Line, store: &mut [u8], page: &mut Page) -> Option<()> {
    let width: u8 = line.number(b' ')?;
    let bytes = line.stored(store)?;
    line.finished()?;
    let uint = match width {
        1 => read_as::<u8>(bytes),
        2 => read_as::<u16>(bytes),
        4 => read_as::<u32>(bytes),
        8 => read_as::<u64>(bytes),
        _ => return None,
    };
    write_uint(page, uint);
    Some(())
}

fn read_as<W: Width>(bytes: &[u8]) -> Result<Uint, Refusal> {
    let read = OptionValue::<W>::try_from(bytes)?;
    Ok(Uint {
        number: read.value.0.widened(),
        zeros: read.zeros,
    })
}

// to-uint WIDTH HEX
pub fn to_uint(line: &mut Line, store: &mut [u8], page: &mut Page) -> Option<()> {
    let width = line.number(b' ')?;
    let bytes = line.stored(store)?;
    line.finished()?;
    write_uint(page, option_value::option_to_uint(bytes, width));
    Some(())
}

// uint-write WIDTH ROOM NUMBER
pub fn uint_write(line: &mut Line, room: &mut [u8], page: &mut Page) -> Option<()> {
    let width: u8 = line.number(b' ')?;
    let room = line.room(room)?;
    let written = match width {
        1 => OptionValue(read_last::<u8>(line)?).into_bytes(room),
        2 => OptionValue(read_last::<u16>(line)?).into_bytes(room),
        4 => OptionValue(read_last::<u32>(line)?).into_bytes(room),
        8 => OptionValue(read_last::<u64>(line)?).into_bytes(room),
        _ => return None,
    };
    write_written(page, written, room);
    Some(())
}

// Reads a number that ends a line.
fn read_last<N: TryFrom<u64>>(line: &mut Line) -> Option<N>
where
    N::Error: Drop,
    N: Drop,
{
    let number = line.number(b' ')?;
    line.finished()?;
    Some(number)
}

// from-uint ROOM NUMBER
pub fn from_uint(line: &mut Line, room: &mut [u8], page: &mut Page) -> Option<()> {
    let room = line.room(room)?;
    let number = line.number(b' ')?;
    line.finished()?;
    write_written(page, option_value::option_from_uint(number, room), room);
    Some(())
}
