// What is shown of a text: the records it becomes, their bytes on the wire, and the text that these give back.
use crate::wording::{put_record, put_text, put_wire};
use packet::{Packet, Stores};
use refusal::{Fault, Refusal};
use reports::{Failure, Numbered, Page};
use target_reading::read_target;
use target_writing::write_target;
use writing::to_bytes_unlimited_strict;

// How many bytes stand before the options of a message without a token.
const HEADER: usize = 4;

// Answers a text.
pub fn answer(
    page: &mut Page,
    text: &[u8],
    store: &mut [u8],
    work: &mut [u8],
) -> Result<(), Failure> {
    page.spill()?;
    match read_target(text, store, 0) {
        Ok(packet) => {
            let stores = Stores {
                datagram: b"",
                edits: store,
            };
            return show(page, packet, stores, work);
        }
        Err(Fault::Refused(why)) => put_refused(page, why),
        Err(Fault::BadOption(index)) => put_bad_option(page, index),
    }
    Ok(())
}

// refused 15 BadText
fn put_refused(page: &mut Page, why: Refusal) {
    let refused = Numbered(why);
    writeln!(page, "{refused}");
}

// refused 16 BadOption at 1
fn put_bad_option(page: &mut Page, index: usize) {
    let refused = Numbered(Refusal::BadOption);
    writeln!(page, "{refused} at {index}");
}

fn show(page: &mut Page, packet: Packet, stores: Stores, work: &mut [u8]) -> Result<(), Failure> {
    show_records(page, packet, stores)?;
    page.spill()?;
    show_wire(page, packet, stores, work);
    page.spill()?;
    show_text(page, packet, stores, work);
    Ok(())
}

// A line for each record. They are many, so the page is spilled on the way.
fn show_records(page: &mut Page, packet: Packet, stores: Stores) -> Result<(), Failure> {
    for i in 0..packet.option_count() {
        let number = packet.option_number(i).unwrap_or(0);
        let value = packet.option_value(stores, i);
        page.spill()?;
        put_record(page, number, value);
    }
    Ok(())
}

// The options as they stand on the wire, after the header.
fn show_wire(page: &mut Page, packet: Packet, stores: Stores, work: &mut [u8]) {
    match to_bytes_unlimited_strict(packet, stores, work) {
        Ok(length) => put_wire(page, work.get(HEADER..length).unwrap_or(b"")),
        Err(why) => put_refused(page, why),
    }
}

// The text that the records give back.
fn show_text(page: &mut Page, packet: Packet, stores: Stores, work: &mut [u8]) {
    match write_target(packet, stores, work) {
        Ok(length) => put_text(page, work.get(..length).unwrap_or(b"")),
        Err(why) => put_refused(page, why),
    }
}
