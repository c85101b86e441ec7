// The blocks of a plan, one to a line.
ghost use Rattle.std.specs.Prelude.{◌≤◌};

use hexadecimal::put_hex;
use placing::put_uint;
use reports::{Failure, Page};

// How many bytes a strict block has, and which is its first.
pub fn size_of(value: u32) -> u64
    ensures { result ≤ 1024 }
{
    match value % 8 {
        0 => 16,
        1 => 32,
        2 => 64,
        3 => 128,
        4 => 256,
        5 => 512,
        _ => 1024,
    }
}

pub fn first_of(value: u32) -> u64
    ensures { result ≤ 274877906944 }
{
    let num = (value / 16) as u64;
    match value % 8 {
        0 => num * 16,
        1 => num * 32,
        2 => num * 64,
        3 => num * 128,
        4 => num * 256,
        5 => num * 512,
        _ => num * 1024,
    }
}

// Puts a line for each value. They are many, so the page is spilled on the way.
pub fn put_blocks(page: &mut Page, size: usize, values: &[u32]) -> Result<(), Failure> {
    for value in values {
        page.spill()?;
        put_block(page, size as u64, *value);
    }
    Ok(())
}

// block 3, more, size 16, bytes 48 to 63, option 38
fn put_block(page: &mut Page, image: u64, value: u32) {
    page.put_number(b"block ", (value / 16) as u64);
    page.put_bytes(which_of(value));
    page.put_number(b", size ", size_of(value));
    page.put_number(b", bytes ", first_of(value));
    page.put_number(b" to ", last_of(image, value));
    page.put_bytes(b", option ");
    let mut bytes = [0u8; 8];
    let count = put_uint(&mut bytes, 0, value as u64);
    let option = bytes.get(..count).unwrap_or(b"");
    page.place = put_hex(page.bytes, page.place, option);
    page.put_bytes(b"\n");
}

fn which_of(value: u32) -> &'static [u8] {
    match value / 8 % 2 {
        1 => b", more",
        _ => b", last",
    }
}

// The last byte of a block that is in the image.
fn last_of(image: u64, value: u32) -> u64 {
    let end = first_of(value) + size_of(value);
    end.min(image).saturating_sub(1)
}
