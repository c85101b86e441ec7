// The request for the check of a plan.
use output::Page;
use telling::write_refused;
use words::{Line, separator};

// plan-check SIZE HELD VALUES
pub fn check(line: &mut Line, store: &mut [u8], list: &mut [u32], page: &mut Page) -> Option<()> {
    let size: u32 = line.number(b' ')?;
    let held = line.stored(store)?;
    let values = read_values(line, list)?;
    line.finished()?;
    match plan_checking::check(size as usize, held, values) {
        Ok(()) => page.text(b"accepted"),
        Err(why) => write_refused(page, why),
    }
    Some(())
}

// Puts the numbers of a word at the start of the list: with commas between, or a dash for none.
fn read_values<'l>(line: &mut Line, list: &'l mut [u32]) -> Option<&'l [u32]> {
    if line.past(b" -").is_some() {
        return Some(&[]);
    }
    for i in 0..list.len() {
        list[i] = line.number(separator(i))?;
        if !line.is_at(b',') {
            return list.get(..=i);
        }
    }
    None
}
