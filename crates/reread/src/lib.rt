// Standard input for a program that reads it twice, first to judge it and then to work on it: the file itself, or a copy of it
// where it is a pipe or a terminal. The copy goes to a file in /tmp that has no name by the time it is read.
#![tactic(auto)]

ghost use Rattle.std.specs.Prelude.{◌+◌};

use reports::Failure;
use std::fs::{File, OpenOptions};
use std::io::{ErrorKind, Read, Seek, SeekFrom, Write};
use std::os::fd::AsFd;
use std::os::unix::fs::OpenOptionsExt;
use std::{fs, io, process};

// A file and the position that its bytes begin at.
#[derive(Drop)]
pub struct Input {
    file: File,
    start: u64,
}

impl Input {
    // Standard input, at any size.
    pub fn standard(rt: &HostRuntime) -> Result<Input, Failure> {
        ensure_open(rt)?;
        match opened(rt) {
            Some(input) => Ok(input),
            None => copied(rt),
        }
    }

    // Goes back to where the input begins.
    pub fn rewind(&self) -> Result<(), Failure> {
        let mut file = &self.file;
        match file.seek(SeekFrom::Start(self.start)) {
            Ok(_) => Ok(()),
            Err(why) => Err(Failure::new("going back in the input", why)),
        }
    }

    // Reads on, as `fill` does.
    pub fn fill(&self, window: &mut [u8], waiting: usize) -> Result<Filled, Failure> {
        fill(&mut &self.file, window, waiting)
    }

    // Fills the window from where the input begins, and answers the part of it that is filled.
    pub fn front<'a>(&self, window: &'a mut [u8]) -> Result<&'a [u8], Failure> {
        self.rewind()?;
        let filled = self.fill(window, 0)?;
        Ok(&window[..filled.count.min(window.len())])
    }
}

fn reading(why: io::Error) -> Failure {
    Failure::new("reading the input", why)
}

// Fails where standard input is closed. That isn't taken for an empty one: the copy would get its number. The descriptor that shows it
// is closed before anything is opened, since a process may have few of them.
fn ensure_open(rt: &HostRuntime) -> Result<(), Failure> {
    let _open = rt.stdin().as_fd().try_clone_to_owned().map_err(reading)?;
    Ok(())
}

// The file that standard input is, opened a second time, and the position that standard input has in it. Only a regular file is
// opened, since opening a pipe can wait for one who writes to it.
fn opened(rt: &HostRuntime) -> Option<Input> {
    let met = fs::metadata(rt, "/proc/self/fd/0").ok()?;
    if !met.is_file() {
        return None;
    }
    let start = position(rt)?;
    let file = File::open(rt, "/proc/self/fd/0").ok()?;
    Some(Input { file, start })
}

// The position of standard input, as the system tells it: its first line is pos: and the number.
fn position(rt: &HostRuntime) -> Option<u64> {
    let told = fs::read_to_string(rt, "/proc/self/fdinfo/0").ok()?;
    let line = told.as_str().lines().next()?;
    line.strip_prefix("pos:")?.trim().parse::<u64>().ok()
}

// How many names for a copy are tried.
const NAMES: u32 = 1000000;

// A new file in /tmp, which is open for writing.
#[derive(Drop)]
struct Temporary {
    name: String,
    file: File,
}

// Makes a file in /tmp that only its owner reads and writes.
fn create_temp(rt: &HostRuntime) -> io::Result<Temporary> {
    let id = process::id(rt.process());
    for i in 0..NAMES {
        let name = format!(in rt.alloc(); "/tmp/rickwinter-{id}-{i}")?;
        let made = OpenOptions::new()
            .write(true)
            .create_new(true)
            .mode(0o600)
            .open(rt, name.as_str());
        match made {
            Ok(file) => return Ok(Temporary { name, file }),
            Err(why) => {
                if why.kind() != ErrorKind::AlreadyExists {
                    return Err(why);
                }
            }
        }
    }
    Err(io::Error::from(ErrorKind::AlreadyExists))
}

// A copy of standard input.
fn copied(rt: &HostRuntime) -> Result<Input, Failure> {
    let (file, mut copy) = unnamed(rt).map_err(|why| Failure::new(
        "making a file in /tmp for a copy of the input",
        why,
    ))?;
    copy_all(rt, &mut copy)?;
    Ok(Input { file, start: 0 })
}

// A new file with no name, open for reading, and for writing. They are two, so that the second is closed once the copy is made: it may
// have the number of a standard output that is closed.
fn unnamed(rt: &HostRuntime) -> io::Result<(File, File)> {
    let Temporary { name, file: copy } = create_temp(rt)?;
    let opened = File::open(rt, name.as_str());
    let _ = fs::remove_file(rt, name.as_str());
    Ok((opened?, copy))
}

// Copies standard input to its end. std's `copy` would not tell whether reading or writing failed.
fn copy_all(rt: &HostRuntime, copy: &mut File) -> Result<(), Failure> {
    let mut piece = [0u8; 65536];
    let mut from = rt.stdin();
    for _ in 0..u64::MAX {
        let count = from.read(&mut piece).map_err(reading)?;
        if count == 0 {
            break;
        }
        copy.write_all(&piece[..count]).map_err(|why| Failure::new(
            "writing a copy of the input in /tmp",
            why,
        ))?;
    }
    Ok(())
}

// How many bytes of a window are filled, and whether the input ends with them.
#[derive(Clone, Copy)]
pub struct Filled {
    pub count: usize,
    pub ended: bool,
}

// What standard input begins with: all of it, where it has fewer bytes than there is room for.
pub fn beginning<'a>(rt: &HostRuntime, room: &'a mut [u8]) -> Result<&'a [u8], Failure> {
    let filled = fill(&mut rt.stdin(), room, 0)?;
    Ok(&room[..filled.count.min(room.len())])
}

// Reads until the window is full behind what waits at its start, or the input ends.
pub fn fill<R: Read>(from: &mut R, window: &mut [u8], waiting: usize) -> Result<Filled, Failure> {
    let mut count = waiting;
    while count < window.len() {
        let more = from.read(&mut window[count..]).map_err(reading)?;
        if more == 0 {
            return Ok(Filled { count, ended: true });
        }
        count += more;
    }
    Ok(Filled {
        count,
        ended: false,
    })
}
