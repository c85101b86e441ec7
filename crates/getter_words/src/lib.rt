// What the getters answer of a packet, as words: content format, Observe, and the options of the numbers asked for.
#![tactic(auto)]

use output::Page;
use packet_words::{Held, write_packet};
use refusal::Refusal;
use telling::write_zeros;
use typed_options::{ContentFormat, Observe, get_content_format, get_observe_value};
use words::{Line, separator};

// Puts a packet, and what the getters answer of it. The numbers asked for stand where the line is.
pub fn write_getters(page: &mut Page, asked: Option<Line>, held: Held) {
    write_packet(page, held);
    write_format(page, get_content_format(held.packet, held.stores));
    write_observe(page, get_observe_value(held.packet, held.stores));
    page.text(b" asked ");
    match asked {
        Some(line) => write_asked(page, line, held),
        None => page.byte(b'-'),
    }
}

fn write_format(page: &mut Page, read: ContentFormat) {
    match read.format {
        Some(format) => page.number(b" format ", format as u64),
        None => page.text(b" format none"),
    }
    write_zeros(page, read.zeros);
}

fn write_observe(page: &mut Page, observe: Result<Option<Observe>, Refusal>) {
    match observe {
        Ok(Some(observe)) => {
            page.number(b" observe ", observe.value as u64);
            write_zeros(page, observe.zeros);
        }
        Ok(None) => page.text(b" observe none zeros 0"),
        Err(why) => page.number(b" observe refused ", why.number() as u64),
    }
}

// Puts what is asked of each number in a list. A list can ask for one long value again and again, so the output is
// spilled on the way.
fn write_asked(page: &mut Page, mut line: Line, held: Held) {
    for i in 0..line.len() {
        let Some(number) = line.number(separator(i)) else {
            return;
        };
        page.spill();
        page.separator(i);
        write_option(page, number, held);
    }
}

fn write_option(page: &mut Page, number: u16, held: Held) {
    let packet = held.packet;
    page.number(b"", number as u64);
    if packet.has_option(number) {
        page.text(b":yes:");
    } else {
        page.text(b":no:");
    }
    page.number(b"", packet.count_of(number) as u64);
    page.hex(b":", packet.get_first_option(held.stores, number));
}
