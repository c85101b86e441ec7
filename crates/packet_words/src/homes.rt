// The two stores of a packet, as a line names them.
use packet::Home;
use words::Line;

// How many bytes of a line's store are the datagram's: the edit store is the rest of it.
pub const EDITS: usize = 100000;

// Reads the mark of a word that follows a byte: `e:` for the edit store, and nothing for the datagram.
pub fn read_home(line: &mut Line, before: u8) -> Option<Home> {
    line.after(before)?;
    if line.past(b"e:").is_some() {
        return Some(Home::Edits);
    }
    Some(Home::Datagram)
}
