// The request to compact a raw packet, with a second buffer whose bytes are known before.
#![tactic(auto)]

use class_words::{write_class_and_id, write_version_and_type};
use compacting::compact;
use output::Page;
use packet::Stores;
use packet_words::Held;
use raw_words::{Raw, read_raw, write_raw};
use rooms::{are_before, fill};
use telling::{write_kept, write_refused};
use words::{Line, part};

// Whether a name is that of this request.
pub fn is_named(name: &[u8]) -> bool {
    matches!(name, b"compact")
}

// compact ROOM RAW
pub fn answer(line: &mut Line, store: &mut [u8], room: &mut [u8], page: &mut Page) -> Option<()> {
    let second = line.room(room)?;
    let (Raw { packet, datagram }, edits) = read_raw(line, store)?;
    line.finished()?;
    fill(second);
    let packet = match compact(packet, datagram, edits, second) {
        Ok(compacted) => {
            write_end(page, second, compacted.end);
            compacted.packet
        }
        Err(why) => {
            write_refused(page, why);
            write_kept(page, are_before(second, 0));
            packet
        }
    };
    write_compacted(
        page,
        Held {
            packet,
            stores: Stores { datagram, edits },
        },
    );
    Some(())
}

// Puts the end and the bytes of the second buffer up to it, and whether its other bytes are as they were.
fn write_end(page: &mut Page, second: &[u8], end: usize) {
    page.number(b"compacted ", end as u64);
    page.hex(b" ", part(second, 0, end));
    write_kept(page, are_before(second, end));
}

// Puts what is left, as the words of a raw packet.
fn write_compacted(page: &mut Page, held: Held) {
    let header = held.packet.header;
    write_version_and_type(page, header);
    write_class_and_id(page, header);
    write_raw(page, held);
}
