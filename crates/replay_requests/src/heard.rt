// The request to hear one message over a table that is given with it.
use class_words::read_type;
use hearing::{TABLE_SIZE, Verdict, hear};
use output::Page;
use telling::{write_kept, write_refused};
use words::{Line, part};

// How many bytes a place of the table has.
const PLACE_SIZE: usize = 25;

// hear BEFORE TIME TYPE ID PEER HEX
pub fn answer(line: &mut Line, store: &mut [u8], page: &mut Page) -> Option<()> {
    let before = line.number(b' ')?;
    let time = line.number(b' ')?;
    let kind = read_type(line)?;
    let id = line.number(b' ')?;
    let peer = line.peer()?;
    let size = line.bytes(b' ')?.put(store, 0).ok()?;
    line.finished()?;
    // The table once more behind it, to be held to what the call leaves.
    let (table, rest) = store.split_at_mut_checked(size)?;
    let copy = rest.get_mut(..size)?;
    copy.copy_from_slice(table);
    let heard = hear(table, before, time, kind, peer, id);
    let (table, copy) = (&*table, &*copy);
    match heard {
        Ok(verdict) => write_verdict(page, verdict, table, copy),
        Err(why) => {
            write_refused(page, why);
            write_kept(page, table == copy);
        }
    }
    Some(())
}

// Puts what the rule says, and whether every byte of the table is as it came but for those of the place that a new one took.
fn write_verdict(page: &mut Page, verdict: Verdict, table: &[u8], before: &[u8]) {
    match verdict {
        Verdict::New => write_new(page, table, before),
        Verdict::Duplicate => {
            page.text(b"duplicate");
            write_kept(page, table == before);
        }
        Verdict::Passed => {
            page.text(b"passed");
            write_kept(page, table == before);
        }
    }
}

// Puts the number of the place that changed, its bytes, and whether all others are as they came.
fn write_new(page: &mut Page, table: &[u8], before: &[u8]) {
    page.text(b"new");
    let Some(at) = first_change(table, before) else {
        return write_kept(page, false);
    };
    if TABLE_SIZE <= at {
        return write_kept(page, false);
    }
    let number = at / PLACE_SIZE;
    let start = number * PLACE_SIZE;
    let end = start + PLACE_SIZE;
    page.number(b" ", number as u64);
    page.hex(b" ", part(table, start, end));
    let kept = part(table, 0, start) == part(before, 0, start)
        && part(table, end, table.len()) == part(before, end, before.len());
    write_kept(page, kept);
}

// Where two tables of one length first differ.
fn first_change(table: &[u8], before: &[u8]) -> Option<usize> {
    table.iter().zip(before).position(|(byte, old)| byte != old)
}
