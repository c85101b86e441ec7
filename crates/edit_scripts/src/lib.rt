// Edit scripts: a packet, changed step by step.
#![tactic(auto)]

use compacting::compact;
use edit_steps::{Source, Step, read_step};
use edit_taking::take;
use packet::Packet;
use packet::limits::MAX_STORE;
use refusal::Refusal;
use words::Line;

// A script that was played: the packet as its steps left it, why the last of them was refused, if it was, and the line from the
// numbers on that are asked for, if some are.
#[derive(Clone, Copy)]
pub struct Played<'l> {
    pub packet: Packet,
    pub refused: Option<Refusal>,
    pub asked: Option<Line<'l>>,
}

// Takes the steps of a script, up to the end of the line or the first that is refused. A raw one neither asks nor compacts.
pub fn play<'l>(
    start: Packet,
    line: &mut Line<'l>,
    datagram: &[u8],
    source: &mut Source,
) -> Option<Played<'l>> {
    let mut packet = start;
    for _ in 0..line.len() {
        if !line.is_at(b' ') {
            line.finished()?;
            return Some(Played {
                packet,
                refused: None,
                asked: None,
            });
        }
        let step = read_step(line, source)?;
        if source.raw && matches!(step, Step::Ask | Step::Compact) {
            return None;
        }
        if let Step::Ask = step {
            return ask(packet, line);
        }
        line.ended()?;
        match taken(packet, step, datagram, source) {
            Ok(edited) => packet = edited,
            Err(why) => {
                return Some(Played {
                    packet,
                    refused: Some(why),
                    asked: None,
                });
            }
        }
    }
    None
}

// The step that asks is the last: the line ends after the numbers.
fn ask<'l>(packet: Packet, line: &mut Line<'l>) -> Option<Played<'l>> {
    let asked = *line;
    line.numbers()?;
    line.finished()?;
    Some(Played {
        packet,
        refused: None,
        asked: Some(asked),
    })
}

// Takes a step, whose values have to have found a place.
fn taken(
    packet: Packet,
    step: Step,
    datagram: &[u8],
    source: &mut Source,
) -> Result<Packet, Refusal> {
    if source.free.is_none() {
        return Err(Refusal::NoRoom);
    }
    match step {
        Step::Compact => compacted(packet, datagram, source),
        _ => take(packet, step, source.edits),
    }
}

// Compacts, with a second buffer of its own.
fn compacted(packet: Packet, datagram: &[u8], source: &mut Source) -> Result<Packet, Refusal> {
    let mut second = [0u8; MAX_STORE];
    let compacted = compact(packet, datagram, source.edits, &mut second)?;
    source.free = Some(compacted.end);
    Ok(compacted.packet)
}
