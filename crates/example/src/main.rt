// A worked example: reads a datagram from standard input, looks at its path, adds a query to it and writes it again.
#![tactic(auto)]

use editing::add_option;
use hexadecimal::put_hex;
use packet::{Home, Packet, Range, Stores};
use refusal::Refusal;
use reports::{Failure, Numbered, Page};
use tables::option_number;

// Asks for the same in English: the message with one Uri-Query option more, whose value, lang=en, is the edit store. The
// datagram is only read.
fn in_english(stores: Stores, out: &mut [u8]) -> Result<usize, Refusal> {
    let packet = reading::from_bytes_strict(stores.datagram)?;
    let asked = with_query(packet, stores)?;
    writing::to_bytes_strict(asked, stores, out)
}

// What has no path is left as it is.
fn with_query(packet: Packet, stores: Stores) -> Result<Packet, Refusal> {
    let path = packet.get_first_option(stores, option_number::URI_PATH);
    if path.is_empty() {
        return Ok(packet);
    }
    let query = Range {
        home: Home::Edits,
        start: 0,
        len: 7,
    };
    add_option(packet, option_number::URI_QUERY, query)
}

fn main(rt: HostRuntime) {
    reports::end(&rt, show(&rt));
}

// A line with the bytes of what is written, or with the refusal.
fn show(rt: &HostRuntime) -> Result<(), Failure> {
    let mut room = [0u8; 65536];
    let datagram = reread::beginning(rt, &mut room)?;
    let mut out = [0u8; 1152];
    let mut line = [0u8; 2400];
    let mut page = Page::new(rt.stdout(), &mut line);
    let stores = Stores {
        datagram,
        edits: b"lang=en",
    };
    match in_english(stores, &mut out) {
        Err(why) => writeln!(page, "{}", Numbered(why)),
        Ok(length) => put_line(&mut page, out.get(..length).unwrap_or(b"")),
    }
    page.finish()
}

// Puts bytes as hexadecimal digits, and ends the line.
fn put_line(page: &mut Page, bytes: &[u8]) {
    page.place = put_hex(page.bytes, page.place, bytes);
    page.put_bytes(b"\n");
}
