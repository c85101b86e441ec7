// The lines of the input, each a message. An empty line is none.
use freezing::freeze;
use hexadecimal::put_unhexed;
use packet::Stores;
use peer_reading::peer_in;
use reading::from_bytes_strict;
use refusal::Refusal;
use reports::Page;
use stream::Form;
use walks::{Piece, Work};

// How many bytes the window has, one more than the longest line.
pub const WINDOW: usize = 200000;

// Freezes each line's message in a form, by way of room for a datagram.
#[derive(Drop)]
pub struct Freeze<'a> {
    pub form: Form,
    pub datagram: &'a mut [u8],
}

impl Work for Freeze<'_> {
    // The last line may have no newline. One that fills the window without one is refused.
    fn take(&mut self, rest: &[u8], ended: bool, page: &mut Page) -> Piece {
        let (line, length) = match rest.iter().position(|byte| *byte == b'\n') {
            Some(end) => (&rest[..end], end + 1),
            None if ended => (rest, rest.len()),
            None if WINDOW <= rest.len() => return Piece::Refused(Refusal::BadText),
            None => return Piece::Cut,
        };
        if line.is_empty() {
            return Piece::Skipped(length);
        }
        match freeze_line(self.form, line, self.datagram, page) {
            Ok(()) => Piece::Message(length, Ok(())),
            Err(why) => Piece::Refused(why),
        }
    }

    fn said(&self) -> &'static str {
        "passed over more than"
    }
}

// Puts the frozen message of a line: a peer, a space, a strict datagram.
fn freeze_line(
    form: Form,
    line: &[u8],
    datagram: &mut [u8],
    page: &mut Page,
) -> Result<(), Refusal> {
    let space = line
        .iter()
        .position(|byte| *byte == b' ')
        .ok_or(Refusal::BadText)?;
    let peer = peer_in(&line[..space])?;
    let length = put_unhexed(datagram, 0, &line[space + 1..])?;
    let datagram = datagram.get(..length).unwrap_or(b"");
    let packet = from_bytes_strict(datagram)?;
    let mut message = [0u8; 1396];
    let length = freeze(form, peer, packet, Stores::of(datagram), &mut message, 0)?;
    page.put_bytes(message.get(..length).unwrap_or(b""));
    Ok(())
}
