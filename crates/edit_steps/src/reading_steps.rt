// Steps, read from the words of a line.
use crate::source::Source;
use crate::values::Values;
use class::MessageClass;
use class_words::{read_class, read_type};
use header::MessageType;
use packet::Range;
use words::{Line, separator};

#[derive(Clone, Copy)]
pub enum Step {
    Add { number: u16, value: Range },
    Set { number: u16, values: Values },
    Clear(u16),
    ClearAll,
    ContentFormat { format: u16, start: u32 },
    Observe { value: u32, start: u32 },
    Version(u8),
    Type(MessageType),
    Class(MessageClass),
    Id(u16),
    Token(Range),
    Payload(Range),
    // To tell what the options are of the numbers that follow.
    Ask,
    Compact,
}

// Reads a step, whose values come from a source.
pub fn read_step(line: &mut Line, source: &mut Source) -> Option<Step> {
    line.past(b" ; ")?;
    match line.name() {
        b"add" => Some(Step::Add {
            number: line.number(b' ')?,
            value: source.read_value(line, b' ')?,
        }),
        b"set" => read_set(line, source),
        b"clear" => Some(Step::Clear(line.number(b' ')?)),
        b"clear-all" => Some(Step::ClearAll),
        b"content-format" => {
            let format = line.number(b' ')?;
            let start = source.read_start(line, length(format as u32))?;
            Some(Step::ContentFormat { format, start })
        }
        b"observe" => {
            let value = line.number(b' ')?;
            let start = source.read_start(line, length(value))?;
            Some(Step::Observe { value, start })
        }
        b"token" => Some(Step::Token(source.read_value(line, b' ')?)),
        b"payload" => Some(Step::Payload(source.read_value(line, b' ')?)),
        b"ask" => Some(Step::Ask),
        b"compact" => Some(Step::Compact),
        name => read_header_step(line, name),
    }
}

// Reads a step that changes the header.
fn read_header_step(line: &mut Line, name: &[u8]) -> Option<Step> {
    match name {
        b"version" => Some(Step::Version(line.number(b' ')?)),
        b"type" => Some(Step::Type(read_type(line)?)),
        b"class" => Some(Step::Class(read_class(line)?)),
        b"id" => Some(Step::Id(line.number(b' ')?)),
        _ => None,
    }
}

// Reads the number and the values of a step that sets an option: a list of some, or a word for none.
fn read_set(line: &mut Line, source: &mut Source) -> Option<Step> {
    let number = line.number(b' ')?;
    let mut values = Values::new();
    if line.past(b" none").is_some() {
        return Some(Step::Set { number, values });
    }
    for i in 0..line.len() {
        values.push(source.read_value(line, separator(i))?);
        if !line.is_at(b',') {
            return Some(Step::Set { number, values });
        }
    }
    None
}

// How many bytes a number has at the shortest.
fn length(number: u32) -> usize {
    match number {
        0 => 0,
        1..=255 => 1,
        256..=65535 => 2,
        65536..=16777215 => 3,
        _ => 4,
    }
}
