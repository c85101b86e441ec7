// The getters of a raw packet, and its edits.
use class_words::{write_class_and_id, write_version_and_type};
use edit_scripts::play;
use edit_steps::Source;
use getter_words::write_getters;
use output::Page;
use packet::Stores;
use packet_words::Held;
use raw_words::{Raw, read_raw, write_raw};
use telling::write_refused;
use words::Line;

// get-raw NUMBERS RAW, with a dash for no numbers
pub fn get(line: &mut Line, store: &mut [u8], page: &mut Page) -> Option<()> {
    let asked = read_asked(line)?;
    let (raw, edits) = read_raw(line, store)?;
    line.finished()?;
    write_getters(page, asked, raw.held(edits));
    Some(())
}

// Goes past the numbers that are asked for, and answers the line from them on.
fn read_asked<'l>(line: &mut Line<'l>) -> Option<Option<Line<'l>>> {
    if line.past(b" -").is_some() {
        return Some(None);
    }
    let asked = *line;
    line.numbers()?;
    Some(Some(asked))
}

// edit-raw RAW ; STEP ; STEP. No step of a raw one looks at the datagram.
pub fn edit(line: &mut Line, store: &mut [u8], page: &mut Page) -> Option<()> {
    let (Raw { packet, datagram }, edits) = read_raw(line, store)?;
    let mut source = Source::new(true, edits);
    let played = play(packet, line, b"", &mut source)?;
    match played.refused {
        Some(why) => write_refused(page, why),
        None => page.text(b"raw"),
    }
    write_edited(
        page,
        Held {
            packet: played.packet,
            stores: Stores {
                datagram,
                edits: source.edits,
            },
        },
    );
    Some(())
}

// Puts the packet as the steps left it.
fn write_edited(page: &mut Page, held: Held) {
    let header = held.packet.header;
    write_version_and_type(page, header);
    write_class_and_id(page, header);
    write_raw(page, held);
}
