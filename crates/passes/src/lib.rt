// What is done with a freeze stream of any length: it is judged, its messages are shown, or it is converted. A message has at most
// 1,396 bytes, so a window always holds the next one whole. Refusals are those of the whole stream: 19 of any message before the first
// bad datagram's own.
#![tactic(auto)]

use lines::put_decoded;
use peers::put_peer;
use reading::from_bytes_strict;
use refusal::Refusal;
use reports::Page;
use stream::{Form, Step, message_at};
use thawing::{next_message, strict_at};
use walks::{Piece, Work};

// How many bytes a message has at most, which is in the old form.
const MOST: usize = 1396;

// The form of a stream that is in one of the two, by its front: its first chunk, behind the first peer, is of kind 2 in the old
// form only.
pub fn form_of(front: &[u8]) -> Form {
    match front.get(19) {
        Some(2) => Form::Old,
        _ => Form::New,
    }
}

// Whether the window may hold only a part of the next message.
fn is_cut(rest: &[u8], ended: bool) -> bool {
    !ended && rest.len() < MOST
}

// Judges each message of a stream of a form, where it stands.
#[derive(Clone, Copy)]
pub struct Judge(pub Form);

impl Work for Judge {
    fn take(&mut self, rest: &[u8], ended: bool, _page: &mut Page) -> Piece {
        if is_cut(rest, ended) {
            return Piece::Cut;
        }
        judge_message(self.0, rest)
    }
}

// A message that is refused is asked for again, since a bad datagram decides only where the rest is a stream.
fn judge_message(form: Form, rest: &[u8]) -> Piece {
    match strict_at(form, rest, 0) {
        Ok(step) => Piece::Message(step.next, Ok(())),
        Err(why) => match message_at(form, rest, 0) {
            Ok(step) => Piece::Message(step.next, Err(why)),
            Err(_) => Piece::Refused(why),
        },
    }
}

// Shows each message of a stream of a form.
#[derive(Clone, Copy)]
pub struct Show(pub Form);

impl Work for Show {
    // The datagram is copied, to be read in one piece.
    fn take(&mut self, rest: &[u8], ended: bool, page: &mut Page) -> Piece {
        if is_cut(rest, ended) {
            return Piece::Cut;
        }
        let mut bytes = [0u8; 1280];
        match next_message(self.0, rest, 0, &mut bytes, 0) {
            Err(why) => Piece::Refused(why),
            Ok(Step { len, next }) => {
                put_peer_line(page, rest);
                let datagram = bytes.get(..len).unwrap_or(b"");
                Piece::Message(next, show_datagram(page, datagram))
            }
        }
    }
}

fn show_datagram(page: &mut Page, datagram: &[u8]) -> Result<(), Refusal> {
    let read = from_bytes_strict(datagram);
    page.place = put_decoded(page.bytes, page.place, read, datagram, b'\n');
    read.map(|_| ())
}

// peer 192.0.2.1:5683
fn put_peer_line(page: &mut Page, message: &[u8]) {
    let peer = peer_of(message);
    page.put_bytes(b"peer ");
    page.place = put_peer(page.bytes, page.place, peer);
    page.put_bytes(b"\n");
}

// The peer of a message, which stands behind its first byte.
fn peer_of(message: &[u8]) -> [u8; 18] {
    let mut peer = [0u8; 18];
    if let Some(bytes) = message.get(1..19) {
        peer.copy_from_slice(bytes);
    }
    peer
}

// Puts each message of a stream of a form in the other form.
#[derive(Clone, Copy)]
pub struct Convert(pub Form);

impl Work for Convert {
    fn take(&mut self, rest: &[u8], ended: bool, page: &mut Page) -> Piece {
        if is_cut(rest, ended) {
            return Piece::Cut;
        }
        let form = self.0;
        match message_at(form, rest, 0) {
            Err(why) => Piece::Refused(why),
            Ok(step) => {
                let message = rest.get(..step.next).unwrap_or(b"");
                Piece::Message(step.next, convert_message(form, message, page))
            }
        }
    }
}

fn convert_message(form: Form, message: &[u8], page: &mut Page) -> Result<(), Refusal> {
    let mut other = [0u8; MOST];
    let length = converting::convert(form, message, &mut other)?;
    page.put_bytes(other.get(..length).unwrap_or(b""));
    Ok(())
}
