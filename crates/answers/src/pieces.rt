// The lines of a piece of the input. What they answer is written out with the piece, so that no client waits for an answer
// while the program waits for a request.
use crate::requests;
use output::{Console, Page};
use words::Line;

// The longest line that can be a request, with its newline.
const MAX_LINE: usize = 200001;

// What goes on from one piece of the input to the next.
#[derive(Clone, Copy)]
pub struct Kept {
    // How many bytes of a line wait at the start of the input for their newline.
    pub waiting: usize,
    // Whether the start of that line is gone, since it is too long.
    pub cut: bool,
    // Whether the input goes on: it hasn't ended, and neither reading nor writing has failed.
    pub more: bool,
}

impl Kept {
    // Nothing goes on.
    pub const NONE: Kept = Kept {
        waiting: 0,
        cut: false,
        more: false,
    };
}

// Answers the lines of a piece. How far they go stands in `waiting`.
pub fn answer(console: Console, kept: Kept, piece: &[u8]) -> Kept {
    let mut store = [0u8; 200000];
    let mut room = [0u8; 71000];
    let mut out = [0u8; 600000];
    answer_over(console, kept, piece, &mut store, &mut room, &mut out)
}

// The same over buffers that are lent: where they are made, the check would tell each of their bytes.
fn answer_over(
    console: Console,
    kept: Kept,
    piece: &[u8],
    store: &mut [u8; 200000],
    room: &mut [u8; 71000],
    out: &mut [u8; 600000],
) -> Kept {
    let mut page = Page::new(console, out);
    answer_lines(kept, piece, store, room, &mut page)
}

fn answer_lines(
    kept: Kept,
    piece: &[u8],
    store: &mut [u8],
    room: &mut [u8],
    page: &mut Page,
) -> Kept {
    let mut cut = kept.cut;
    let mut start = 0;
    for (i, byte) in piece.iter().enumerate() {
        if *byte == b'\n' {
            let line = piece.get(start..=i).unwrap_or(b"");
            answer_line(cut, line, store, room, page);
            cut = false;
            start = i + 1;
        }
    }
    page.flush();
    Kept {
        waiting: start,
        cut,
        more: !page.has_failed(),
    }
}

// Answers a line. A line that is too long is no request, and neither is one whose start is gone. The output is written once half of it
// is full: what a line answers in one go fits into the rest.
fn answer_line(cut: bool, text: &[u8], store: &mut [u8], room: &mut [u8], page: &mut Page) {
    let mut line = Line::new(text);
    if cut || MAX_LINE < text.len() || requests::answer(&mut line, store, room, page).is_none() {
        page.text(b"no request");
    }
    page.byte(b'\n');
    page.spill();
}
