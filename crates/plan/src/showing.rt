// What is shown of an image: its size, the blocks of its plan with a picture, and the verdict.
use crate::asking::Asked;
use crate::blocks::put_blocks;
use crate::picture::put_picture;
use plan_checking::check;
use planning::plan;
use refusal::Refusal;
use reports::{Failure, Numbered, Page};

// Shows the plan that is given, or else ours.
pub fn show(page: &mut Page, asked: Asked, held: &[u8], list: &mut [u32]) -> Result<(), Failure> {
    put_image(page, asked.size, held);
    let count = match asked.given {
        Some(count) => count,
        None => plan(asked.size, held, list).unwrap_or(0),
    };
    match list.get(..count) {
        Some(values) => show_plan(page, asked.size, held, values),
        None => {
            put_refused(page, Refusal::BadPlan);
            Ok(())
        }
    }
}

fn show_plan(page: &mut Page, size: usize, held: &[u8], values: &[u32]) -> Result<(), Failure> {
    if let Err(why) = check(size, held, values) {
        put_refused(page, why);
        return Ok(());
    }
    put_picture(page, held, values);
    if values.is_empty() {
        page.put_bytes(b"no block\n");
    }
    put_blocks(page, size, values)?;
    page.put_bytes(b"accepted\n");
    Ok(())
}

fn put_refused(page: &mut Page, why: Refusal) {
    let refused = Numbered(why);
    writeln!(page, "{refused}");
}

// image size 80, units 5, held 1
fn put_image(page: &mut Page, size: usize, held: &[u8]) {
    let units = size.div_ceil(16);
    let count = held.iter().filter(|unit| **unit != 0).count();
    writeln!(page, "image size {size}, units {units}, held {count}");
}
