// The request to freeze a message, in a stream whose bytes are known before.
use freezing::freeze;
use output::Page;
use packet_words::read_packet;
use rooms::{are_before, fill};
use stream::Form;
use telling::{write_kept, write_refused};
use words::{Line, part};

// freeze FORM ROOM START PEER PACKET
pub fn answer(
    form: Form,
    line: &mut Line,
    store: &mut [u8],
    room: &mut [u8],
    page: &mut Page,
) -> Option<()> {
    let stream = line.room(room)?;
    let from = line.number(b' ')?;
    let peer = line.peer()?;
    let held = read_packet(line, store)?;
    line.finished()?;
    fill(stream);
    match freeze(form, peer, held.packet, held.stores, stream, from) {
        Ok(length) => write_frozen(page, stream, from, length),
        Err(why) => {
            write_refused(page, why);
            write_kept(page, are_before(stream, 0));
        }
    }
    Some(())
}

// Puts what was written from a place of the stream on, and whether every other byte is as it was before.
fn write_frozen(page: &mut Page, stream: &[u8], from: usize, length: usize) {
    let end = from.saturating_add(length);
    page.number(b"written ", length as u64);
    page.hex(b" ", part(stream, from, end));
    let kept = are_before(part(stream, 0, from), 0) && are_before(stream, end);
    write_kept(page, kept);
}
