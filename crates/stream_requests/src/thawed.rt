// The request to thaw a stream, with a list and an output whose numbers and bytes are known before.
use output::Page;
use rooms::{are_all, are_before, fill};
use stream::Form;
use telling::{write_kept, write_refused};
use thawing::thaw;
use words::{Line, part};

// The longest list of numbers. Its memory is fixed, since nothing here allocates.
const MAX_LIST: usize = 40000;

// What every number of a list is before.
const BEFORE: usize = 2863311530;

// thaw FORM PLACES ROOM HEX
pub fn answer(
    form: Form,
    line: &mut Line,
    store: &mut [u8],
    room: &mut [u8],
    page: &mut Page,
) -> Option<()> {
    let places: usize = line.number_to(b' ', MAX_LIST as u64)?;
    let room = line.room(room)?;
    let stream = line.stored(store)?;
    line.finished()?;
    let mut list = [BEFORE; MAX_LIST];
    let list = list.get_mut(..places)?;
    fill(room);
    match thaw(form, stream, list, room) {
        Ok(count) => write_thawed(page, count, list, room),
        Err(why) => {
            write_refused(page, why);
            write_kept(page, are_all(list, 0, BEFORE) && are_before(room, 0));
        }
    }
    Some(())
}

// Three numbers for each message, the datagrams end to end, and whether the rest of both is as it was before.
fn write_thawed(page: &mut Page, count: usize, list: &[usize], room: &[u8]) {
    let listed = list.get(..count.saturating_mul(3)).unwrap_or(&[]);
    let end = end_of(listed);
    page.number(b"thawed ", count as u64);
    page.byte(b' ');
    write_numbers(page, listed);
    page.hex(b" ", part(room, 0, end));
    let kept = are_all(list, listed.len(), BEFORE) && are_before(room, end);
    write_kept(page, kept);
}

// Puts the numbers of a list with commas between; a dash where there is none.
fn write_numbers(page: &mut Page, list: &[usize]) {
    if list.is_empty() {
        page.byte(b'-');
    }
    for (i, number) in list.iter().enumerate() {
        page.separator(i);
        page.number(b"", *number as u64);
    }
}

// Where the last datagram ends.
fn end_of(listed: &[usize]) -> usize {
    match listed {
        [.., start, length] => start.saturating_add(*length),
        _ => 0,
    }
}
