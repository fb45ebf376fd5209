// What the command says when something is wrong: of what, why, with the number of the table where there is one, and
// what to do.
use answers::Refusal;
use hexkey::Misspelt;
use std::io::{Error, ErrorKind, Write};
use std::{fmt, io};

// Linux's numbers of errors that share a kind with others.
const EPERM: i32 = 1;

const EIO: i32 = 5;

// What is wrong with a file, a word of the command line or standard output. Its sentence follows the name.
#[derive(Debug, Drop)]
pub enum Reason {
    Unread(Error),
    Unwritten(Error),
    LongName,
    LongKeyFile,
    WrongDigit { place: usize },
    OddDigits { digits: usize },
    KeyLength { size: usize },
    LongFrameFile,
    // of a frame of that size
    Frame { refusal: Refusal, size: usize },
}

// An error that comes by `?` is one of reading.
impl From<Error> for Reason {
    fn from(why: Error) -> Reason {
        Reason::Unread(why)
    }
}

impl From<Misspelt> for Reason {
    fn from(why: Misspelt) -> Reason {
        match why {
            Misspelt::Wrong { place, .. } => Reason::WrongDigit { place },
            Misspelt::Odd { digits } => Reason::OddDigits { digits },
            Misspelt::Long { digits } => Reason::KeyLength { size: digits / 2 },
        }
    }
}

impl Reason {
    pub fn of(self, name: &[u8]) -> Trouble<'_> {
        Trouble { name, reason: self }
    }
}

// A name is bytes: it need not be UTF-8 text.
#[derive(Debug, Drop)]
pub struct Trouble<'a> {
    name: &'a [u8],
    reason: Reason,
}

// Hands what is written on to another writer, piece by piece: what that one does not take is lost, and the next piece is
// tried all the same.
#[derive(Drop)]
pub struct Lossy<'a, E>(pub &'a mut E);

impl<E: Write> Write for Lossy<'_, E> {
    fn write(&mut self, buf: &[u8]) -> io::Result<usize> {
        let _ = self.0.write_all(buf);
        Ok(buf.len())
    }

    fn flush(&mut self) -> io::Result<()> {
        Ok(())
    }
}

impl Trouble<'_> {
    // gatelog: NAME: SENTENCE
    pub fn write_to<E: Write>(&self, err: &mut E) -> io::Result<()> {
        err.write_all(b"gatelog: ")?;
        err.write_all(self.name)?;
        let reason = &self.reason;
        writeln!(err, ": {reason}")
    }
}

// What the system said of a file.
fn unread(why: &Error) -> &'static str {
    match (why.raw_os_error(), why.kind()) {
        (Some(EIO), _) => "the card or disk could not be read: try it in another reader",
        (Some(EPERM), _) => "it cannot be read",
        (_, ErrorKind::NotFound | ErrorKind::NotADirectory) => {
            "there is no such file: check the name"
        }
        (_, ErrorKind::PermissionDenied) => "you may not read it: ask its owner for a copy",
        (_, ErrorKind::IsADirectory) => "it is a folder: name a file in it",
        (_, ErrorKind::InvalidFilename) => "it is too long for a file's name",
        (_, ErrorKind::InvalidInput) => "it is no file's name",
        (_, ErrorKind::InvalidData) => { "its name is not UTF-8 text: give the file another name" }
        _ => "it cannot be read",
    }
}

// What the system said of standard output.
fn unwritten(why: &Error) -> &'static str {
    match why.kind() {
        ErrorKind::StorageFull => {
            "the disk is full, and not all lines were written: make room and list again"
        }
        ErrorKind::BrokenPipe => "its reader has closed it, and not all lines were written",
        _ => "not all lines could be written: list again to another place",
    }
}

impl fmt::Display for Reason {
    fn fmt<W: fmt::Write>(&self, f: &mut fmt::Formatter<W>) -> fmt::Result {
        match self {
            Reason::Unread(why) => f.write_str(unread(why)),
            Reason::Unwritten(why) => f.write_str(unwritten(why)),
            Reason::LongName => f.write_str("it is too long for a file's name"),
            Reason::LongKeyFile => f.write_str(
                "it is too long for a key file: it should hold 32 to 64 hexadecimal digits",
            ),
            Reason::WrongDigit { place } => write!(
                f,
                "character {place} is no hexadecimal digit: \
                 a key file holds the digits 0-9, a-f or A-F and white space"
            ),
            Reason::OddDigits { digits } => write!(
                f,
                "it has {digits} hexadecimal digits, an odd number: each byte of the key takes two"
            ),
            Reason::KeyLength { size } => write!(
                f,
                "the key has {size} bytes (number 1): a key has 16 to 32, two hexadecimal digits each"
            ),
            Reason::LongFrameFile => f.write_str(
                "it has 65536 bytes or more, and a frame has at most 4117: is it the right file?",
            ),
            // The key was judged before, and the buffer has room, so no other refusal comes.
            Reason::Frame { refusal, size } => match refusal {
                Refusal::TextLength => f.write_str(
                    "its cipher bytes are not whole blocks of 16 (number 2): copy the file again",
                ),
                Refusal::TooMany => {
                    f.write_str("it has more than 256 blocks (number 4): is it the right file?")
                }
                Refusal::FrameLength => write!(
                    f,
                    "it has {size} bytes, which is under 21 or not what its length field says (number 6): \
                     copy the file again"
                ),
                Refusal::Version => f.write_str(
                    "its version byte is not 1 (number 7): gatelog reads version 1 alone",
                ),
                _ => {
                    let number = *refusal as u8;
                    write!(
                        f,
                        "it is refused with number {number}: see the table in barkmottle.h"
                    )
                }
            },
        }
    }
}
