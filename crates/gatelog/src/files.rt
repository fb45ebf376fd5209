// Files, standard input and words of the command line, each put into a lent buffer.
ghost use Rattle.std.specs.Prelude.{◌≤◌, IfOk, length};

use crate::trouble::Reason;
use std::env::{Env, FillError};
use std::io::{ErrorKind, Input, Read};
use std::rt::Files;
use std::{fs, io, str};

// A name that is not UTF-8 text cannot be opened: std takes no other.
fn open<R: Files>(rt: &R, path: &[u8]) -> io::Result<R::File> {
    let name = str::from_utf8(path).map_err(|_| io::Error::from(ErrorKind::InvalidData))?;
    fs::open(rt, name)
}

// Reads to the end, or until the buffer is full. After an error the buffer may hold what was read before it. Of std's
// methods `read_exact` fails at the end, and the others need an allocator.
fn load<'a, F: Read>(file: &mut F, buf: &'a mut [u8]) -> Result<&'a [u8], Reason>
    ensures { IfOk result (λ read. length read.now ≤ length buf.old) }
{
    let mut size = 0;
    while size < buf.len() {
        match file.read(&mut buf[size..])? {
            0 => break,
            more => size += more,
        }
    }
    Ok(&buf[..size])
}

pub fn load_file<'a, R: Files>(rt: &R, path: &[u8], buf: &'a mut [u8]) -> Result<&'a [u8], Reason>
    ensures { IfOk result (λ read. length read.now ≤ length buf.old) }
{
    let mut file = open(rt, path)?;
    load(&mut file, buf)
}

pub fn load_input<'a, R: Input>(rt: &R, buf: &'a mut [u8]) -> Result<&'a [u8], Reason>
    ensures { IfOk result (λ read. length read.now ≤ length buf.old) }
{
    load(&mut rt.reader(), buf)
}

// An argument, by its number.
pub fn argument<'a, R: Env>(rt: &R, number: usize, buf: &'a mut [u8]) -> Result<&'a [u8], FillError>
    ensures { IfOk result (λ word. length word.now ≤ length buf.old) }
{
    let length = rt.arg(number, buf)?;
    Ok(&buf[..length])
}

// Whether the command was started with an argument of that number, however long.
pub fn is_given<R: Env>(rt: &R, number: usize) -> bool {
    let mut word = [0u8; 1];
    !matches!(rt.arg(number, &mut word), Err(FillError::NotPresent))
}
