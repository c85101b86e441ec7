// The request to play an edit script over a new packet or a datagram.
#![tactic(auto)]

use edit_scripts::play;
use edit_steps::Source;
use getter_words::write_getters;
use output::Page;
use packet::limits::MAX_STORE;
use packet::{Packet, Stores};
use packet_words::{EDITS, Held};
use telling::{write_refused, write_written};
use words::Line;

// Whether a name is that of this request.
pub fn is_named(name: &[u8]) -> bool {
    matches!(name, b"edit")
}

// edit START ; STEP ; STEP
pub fn answer(line: &mut Line, store: &mut [u8], room: &mut [u8], page: &mut Page) -> Option<()> {
    let (datagram, edits) = store.split_at_mut_checked(EDITS)?;
    let edits = edits.get_mut(..MAX_STORE)?;
    if line.past(b" new").is_some() {
        line.ended()?;
        return answer_from(Packet::new(), line, b"", edits, room, page);
    }
    let datagram = line.stored(datagram)?;
    line.ended()?;
    match reading::from_bytes(datagram) {
        Ok(packet) => answer_from(packet, line, datagram, edits, room, page),
        Err(why) => {
            write_refused(page, why);
            Some(())
        }
    }
}

// Answers the steps that are left, over a packet.
fn answer_from(
    packet: Packet,
    line: &mut Line,
    datagram: &[u8],
    edits: &mut [u8],
    room: &mut [u8],
    page: &mut Page,
) -> Option<()> {
    let mut source = Source::new(false, edits);
    let played = play(packet, line, datagram, &mut source)?;
    if let Some(why) = played.refused {
        write_refused(page, why);
        return Some(());
    }
    let held = Held {
        packet: played.packet,
        stores: Stores {
            datagram,
            edits: source.edits,
        },
    };
    write_getters(page, played.asked, held);
    write_messages(page, held, room);
    Some(())
}

// Puts the message that the packet is written as, by the default limit and by none.
fn write_messages(page: &mut Page, held: Held, room: &mut [u8]) {
    page.text(b" default ");
    let written = writing::to_bytes(held.packet, held.stores, room);
    write_written(page, written, room);
    page.text(b" none ");
    let written = writing::to_bytes_unlimited(held.packet, held.stores, room);
    write_written(page, written, room);
}
