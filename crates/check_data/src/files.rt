// The files of data: their lines are checked one by one and counted. No count comes near 2^64, where it would wrap.
use crate::fields::MOST;
use crate::lines::{Rooms, Verdict, check_line};
use check_text::lines::{is_comment, load};
use std::io::Write;
use std::rt::Files;
use std::{fmt, io};

// A list of files, and a file of data, has fewer bytes.
const LIST: usize = 4096;

const FILE: usize = 163_840;

// The lines that are no comment, and how many of them are wrong or malformed.
#[derive(Clone, Copy, Debug, Default, PartialEq, Eq)]
struct Counts {
    lines: u64,
    wrong: u64,
    malformed: u64,
}

impl Counts {
    fn add(&mut self, verdict: Verdict) {
        self.lines = self.lines.wrapping_add(1);
        match verdict {
            Verdict::Right => {}
            Verdict::Wrong => self.wrong = self.wrong.wrapping_add(1),
            Verdict::Malformed => self.malformed = self.malformed.wrapping_add(1),
        }
    }
}

// The counts as they stand behind the name of a file, up to the end of the line.
impl fmt::Display for Counts {
    fn fmt<W: fmt::Write>(&self, f: &mut fmt::Formatter<W>) -> fmt::Result {
        write!(
            f,
            "{} lines, {} wrong, {} malformed\n",
            self.lines, self.wrong, self.malformed
        )
    }
}

fn is_newline(byte: &u8) -> bool {
    *byte == b'\n'
}

// Says which line is not right, and its operation.
fn tell<W: Write>(
    to: &mut W,
    name: &[u8],
    number: usize,
    verdict: Verdict,
    line: &[u8],
) -> io::Result<()> {
    let operation = line.split(|byte| *byte == b' ').next().unwrap_or(line);
    to.write_all(name)?;
    write!(to, " line {number}{verdict}")?;
    to.write_all(operation)?;
    to.write_all(b"\n")
}

fn check_lines<W: Write>(to: &mut W, name: &[u8], text: &[u8]) -> io::Result<Counts> {
    let mut rooms = Rooms {
        key: [0; MOST],
        bytes: [0; MOST],
        start: [0; MOST],
        answer: [0; MOST],
    };
    let mut counts = Counts::default();
    for (place, line) in text.split_inclusive(is_newline).enumerate() {
        let line = line.strip_suffix(b"\n").unwrap_or(line);
        if is_comment(line) {
            continue;
        }
        let verdict = check_line(line, &mut rooms);
        counts.add(verdict);
        if verdict != Verdict::Right {
            tell(to, name, place.wrapping_add(1), verdict, line)?;
        }
    }
    Ok(counts)
}

fn check_file<R: Files, W: Write>(rt: &R, to: &mut W, name: &[u8]) -> io::Result<()> {
    let mut room = [0u8; FILE];
    let size = load(rt, name, &mut room);
    let counts = check_lines(to, name, &room[..size])?;
    to.write_all(name)?;
    if counts.lines == 0 {
        return to.write_all(b": cannot be read, or has no line\n");
    }
    write!(to, ": {counts}")
}

// Checks each file that the file `list` names, a line for each.
pub fn check_list<R: Files, W: Write>(rt: &R, to: &mut W, list: &[u8]) -> io::Result<()> {
    let mut room = [0u8; LIST];
    let size = load(rt, list, &mut room);
    if size == 0 {
        return to.write_all(b"there is no list of files\n");
    }
    for name in room[..size].split_inclusive(is_newline) {
        check_file(rt, to, name.strip_suffix(b"\n").unwrap_or(name))?;
    }
    Ok(())
}
