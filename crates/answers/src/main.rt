// Answers requests: reads them on standard input, one to a line, and writes one answer to a line to standard output.
#![tactic(auto)]

use output::Console;
use pieces::Kept;
use std::io::{Read, Stdin};
use words::part;

mod pieces;
mod requests;

fn main(rt: HostRuntime) {
    let mut input = [0u8; 300000];
    answer_all(&rt, &mut input);
}

// Takes the input piece by piece, as far as a limit on the pieces that no input reaches.
fn answer_all(rt: &HostRuntime, input: &mut [u8; 300000]) {
    take_all(Console::of(rt), rt.stdin(), input);
}

fn take_all(console: Console, from: Stdin, input: &mut [u8]) {
    let mut kept = Kept {
        waiting: 0,
        cut: false,
        more: true,
    };
    for _ in 0..u64::MAX {
        if !kept.more {
            return;
        }
        kept = take_piece(console, from, kept, input);
    }
}

// Reads a piece of the input and answers the lines that end in it.
fn take_piece(console: Console, mut from: Stdin, kept: Kept, input: &mut [u8]) -> Kept {
    let waiting = kept.waiting;
    if input.len() <= waiting {
        return end(console, kept, input);
    }
    match from.read(&mut input[waiting..]) {
        Err(why) => {
            output::input_failed(console, why);
            Kept::NONE
        }
        Ok(0) => end(console, kept, input),
        Ok(count) => take_read(console, kept, input, waiting + count),
    }
}

// Answers the lines that end in the bytes read so far.
fn take_read(console: Console, kept: Kept, input: &mut [u8], full: usize) -> Kept {
    let kept = pieces::answer(console, kept, part(input, 0, full));
    let taken = kept.waiting;
    let waiting = moving::move_to_front(input, taken, full);
    if waiting < input.len() {
        return Kept {
            waiting,
            cut: kept.cut,
            more: kept.more,
        };
    }
    Kept {
        waiting: 0,
        cut: true,
        more: kept.more,
    }
}

// At the end of the input: a last line that has no newline gets one.
fn end(console: Console, kept: Kept, input: &mut [u8]) -> Kept {
    let waiting = kept.waiting;
    if 0 < waiting || kept.cut {
        if waiting < input.len() {
            input[waiting] = b'\n';
            pieces::answer(console, kept, part(input, 0, waiting + 1));
        }
    }
    Kept::NONE
}
