// The request for our plan, in a list whose numbers are known before.
use crate::{BEFORE, MAX_LIST};
use output::Page;
use rooms::are_all;
use telling::{write_kept, write_refused};
use words::Line;

// plan ROOM SIZE HELD
pub fn plan(line: &mut Line, store: &mut [u8], list: &mut [u32], page: &mut Page) -> Option<()> {
    let room: usize = line.number_to(b' ', MAX_LIST as u64)?;
    let size: u32 = line.number(b' ')?;
    let held = line.stored(store)?;
    line.finished()?;
    let list = list.get_mut(..room)?;
    match planning::plan(size as usize, held, list) {
        Ok(count) => write_plan(page, list, count),
        Err(why) => {
            write_refused(page, why);
            write_kept(page, are_all(list, 0, BEFORE));
        }
    }
    Some(())
}

// Puts the values that stand at the start of the list, and whether every number after them is as it was before.
fn write_plan(page: &mut Page, list: &[u32], count: usize) {
    page.number(b"plan ", count as u64);
    page.byte(b' ');
    write_values(page, list.get(..count).unwrap_or(&[]));
    write_kept(page, are_all(list, count, BEFORE));
}

// Puts numbers with commas between; a dash where there is none. There are at most 32,768 of seven digits, which the page has room
// for at one go.
fn write_values(page: &mut Page, values: &[u32]) {
    if values.is_empty() {
        page.byte(b'-');
    }
    for (i, value) in values.iter().enumerate() {
        page.separator(i);
        page.number(b"", *value as u64);
    }
}
