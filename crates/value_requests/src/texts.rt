// Requests on texts.
use output::Page;
use telling::{write_refused, write_written};
use words::Line;

// text-read HEX
pub fn text_read(line: &mut Line, store: &mut [u8], page: &mut Page) -> Option<()> {
    let bytes = line.stored(store)?;
    line.finished()?;
    match option_value::option_to_text(bytes) {
        Ok(()) => write_part(page, bytes),
        Err(why) => write_refused(page, why),
    }
    Some(())
}

// text-part HEX
pub fn text_part(line: &mut Line, store: &mut [u8], page: &mut Page) -> Option<()> {
    let bytes = line.stored(store)?;
    line.finished()?;
    write_part(page, bytes);
    Some(())
}

fn write_part(page: &mut Page, bytes: &[u8]) {
    page.hex(b"text ", option_value::text_part(bytes));
}

// text-write ROOM HEX
pub fn text_write(
    line: &mut Line,
    store: &mut [u8],
    room: &mut [u8],
    page: &mut Page,
) -> Option<()> {
    let room = line.room(room)?;
    let bytes = line.stored(store)?;
    line.finished()?;
    write_written(page, option_value::option_from_text(bytes, room), room);
    Some(())
}
