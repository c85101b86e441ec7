// The request to replay a trace, with a table and a listing whose bytes are known before.
use hearing::TABLE_SIZE;
use output::Page;
use replaying::{Replayed, replay};
use rooms::{are_before, fill};
use telling::{write_kept, write_refused};
use words::{Line, part};

// The longest table that a line can name.
const MAX_TABLE: usize = 2000;

// replay TABLE LISTING HEX
pub fn answer(line: &mut Line, store: &mut [u8], room: &mut [u8], page: &mut Page) -> Option<()> {
    let size: usize = line.number_to(b' ', MAX_TABLE as u64)?;
    let listing = line.room(room)?;
    let trace = line.stored(store)?;
    line.finished()?;
    let mut lent = [0u8; MAX_TABLE];
    let table = lent.get_mut(..size)?;
    fill(table);
    fill(listing);
    let replayed = replay(trace, table, listing);
    write_replayed(page, replayed, table, listing);
    Some(())
}

// How the replay ended and what it listed, the table, and whether what lies behind both is as it was.
fn write_replayed(page: &mut Page, replayed: Replayed, table: &[u8], listing: &[u8]) {
    match replayed.outcome {
        Ok(()) => page.text(b"replayed"),
        Err(why) => write_refused(page, why),
    }
    page.number(b" ", replayed.count as u64);
    page.hex(b" ", part(listing, 0, replayed.count));
    let untouched = are_before(table, 0);
    if untouched {
        page.text(b" untouched");
    } else {
        page.hex(b" ", used(table));
    }
    let kept = untouched || are_before(table, TABLE_SIZE);
    write_kept(page, kept && are_before(listing, replayed.count));
}

// The places of a table up to its last byte that isn't 0.
fn used(table: &[u8]) -> &[u8] {
    let places = table.get(..TABLE_SIZE).unwrap_or(table);
    match places.iter().rposition(|byte| *byte != 0) {
        Some(last) => places.get(..=last).unwrap_or(b""),
        None => b"",
    }
}
