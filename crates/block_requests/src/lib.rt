// Requests on block values, each in a plain and a strict form.
#![tactic(auto)]

use block_value::BlockValue;
use output::Page;
use telling::{write_refused, write_written, write_zeros};
use words::Line;

#[derive(Clone, Copy)]
pub struct Request {
    strict: bool,
    asked: Asked,
}

#[derive(Clone, Copy)]
enum Asked {
    New,
    Read,
    Write,
    Size,
}

// Which of these requests a name is.
pub fn named(name: &[u8]) -> Option<Request> {
    let (strict, asked) = match name {
        b"block-new" => (false, Asked::New),
        b"block-new-strict" => (true, Asked::New),
        b"block-read" => (false, Asked::Read),
        b"block-read-strict" => (true, Asked::Read),
        b"block-write" => (false, Asked::Write),
        b"block-write-strict" => (true, Asked::Write),
        b"block-size" => (false, Asked::Size),
        b"block-size-strict" => (true, Asked::Size),
        _ => return None,
    };
    Some(Request { strict, asked })
}

// Answers a request. Its value goes to the store, and what it writes to the room.
pub fn answer(
    request: Request,
    line: &mut Line,
    store: &mut [u8],
    room: &mut [u8],
    page: &mut Page,
) -> Option<()> {
    let strict = request.strict;
    match request.asked {
        Asked::New => block_new(strict, line, page),
        Asked::Read => block_read(strict, line, store, page),
        Asked::Write => block_write(strict, line, room, page),
        Asked::Size => block_size(strict, line, page),
    }
}

fn write_block(page: &mut Page, block: BlockValue) {
    page.number(b"block ", block.num as u64);
    page.number(b" ", block.more as u64);
    page.number(b" ", block.size_exponent as u64);
}

// Reads 0 or 1.
fn read_more(line: &mut Line) -> Option<bool> {
    let more: u8 = line.number_to(b' ', 1)?;
    Some(more == 1)
}

// block-new NUMBER MORE SIZE
fn block_new(strict: bool, line: &mut Line, page: &mut Page) -> Option<()> {
    let num = line.number(b' ')?;
    let more = read_more(line)?;
    let size = line.number(b' ')?;
    line.finished()?;
    let built = if strict {
        BlockValue::new_strict(num, more, size)
    } else {
        BlockValue::new(num, more, size)
    };
    match built {
        Ok(block) => write_block(page, block),
        Err(why) => write_refused(page, why),
    }
    Some(())
}

// block-read HEX
fn block_read(strict: bool, line: &mut Line, store: &mut [u8], page: &mut Page) -> Option<()> {
    let bytes = line.stored(store)?;
    line.finished()?;
    let read = if strict {
        BlockValue::try_from_strict(bytes)
    } else {
        BlockValue::try_from(bytes)
    };
    match read {
        Ok(read) => {
            write_block(page, read.block);
            write_zeros(page, read.zeros);
        }
        Err(why) => write_refused(page, why),
    }
    Some(())
}

// block-write ROOM NUMBER MORE EXPONENT
fn block_write(strict: bool, line: &mut Line, room: &mut [u8], page: &mut Page) -> Option<()> {
    let room = line.room(room)?;
    // The largest block number that can be asked for.
    let most = if strict { 4294967295 } else { 65535 };
    let block = BlockValue {
        num: line.number_to(b' ', most)?,
        more: read_more(line)?,
        size_exponent: line.number(b' ')?,
    };
    line.finished()?;
    let written = if strict {
        block.into_bytes_strict(room)
    } else {
        block.into_bytes(room)
    };
    write_written(page, written, room);
    Some(())
}

// block-size EXPONENT
fn block_size(strict: bool, line: &mut Line, page: &mut Page) -> Option<()> {
    let block = BlockValue {
        num: 0,
        more: false,
        size_exponent: line.number(b' ')?,
    };
    line.finished()?;
    let size = if strict {
        block.size_strict()
    } else {
        block.size()
    };
    match size {
        Ok(size) => page.number(b"size ", size as u64),
        Err(why) => write_refused(page, why),
    }
    Some(())
}
