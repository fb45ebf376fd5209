// Calls at the bounds of their room and of the places, with what they answer and what becomes of the buffer.
ghost use Rattle.std.specs.Prelude.{◌≤◌};

use check_text::pattern::{FILL, is_kept};
use listing::{put_closing, put_head, put_lines};
use std::io;
use std::io::Write;

// Lends a call the first bytes of a filled buffer, and says what it answers and whether the bytes past that are as they
// were.
fn lend<W: Write, F: FnOnce(&mut [u8]) -> Option<usize>>(
    to: &mut W,
    room: usize,
    call: F,
) -> io::Result<()>
    requires room { room ≤ 512 }
    requires call { F.IsAlwaysCallable call }
{
    let mut out = [FILL; 512];
    let answer = call(&mut out[..room]).unwrap_or(0);
    let state = if is_kept(&out, answer) {
        "kept"
    } else {
        "CHANGED"
    };
    writeln!(
        to,
        ", {room} bytes of room: answers {answer}, all bytes from there on {state}"
    )
}

// The texts are zeros: readable, and of one second.
fn lines<W: Write>(to: &mut W, size: usize, from: usize, upto: usize, room: usize) -> io::Result<()>
    requires { (size ≤ 64) × (room ≤ 512) }
{
    let texts = [0u8; 64];
    write!(
        to,
        "put_lines, {size} bytes of texts, places {from} up to {upto}"
    )?;
    lend(to, room, |out| put_lines(&texts[..size], from, upto, out))
}

// Room that just fits, texts and places that are not there, no place, and places far beyond.
fn all_lines<W: Write>(to: &mut W) -> io::Result<()> {
    for (from, room) in [(0, 383), (0, 384), (1, 255), (1, 256)] {
        lines(to, 48, from, 3, room)?;
    }
    for (size, from, upto) in [(47, 0, 3), (63, 0, 3), (48, 0, 4), (48, 2, 1)] {
        lines(to, size, from, upto, 512)?;
    }
    for (size, place, room) in [(48, 3, 0), (48, 4, 512), (0, 0, 0)] {
        lines(to, size, place, place, room)?;
    }
    for (from, upto) in [(0, 1 << 57), (usize::MAX, 0), (usize::MAX, usize::MAX)] {
        lines(to, 48, from, upto, 512)?;
    }
    Ok(())
}

// The closing sentence is of blocks that are not readable, so that there is one.
pub fn all<W: Write>(to: &mut W) -> io::Result<()> {
    for room in [0, 127, 128, 129] {
        write!(to, "put_head")?;
        lend(to, room, put_head)?;
    }
    all_lines(to)?;
    let texts = [255u8; 64];
    for (size, room) in [(32, 255), (32, 256), (64, 512), (15, 512), (0, 256)] {
        write!(to, "put_closing, {size} bytes of texts")?;
        lend(to, room, |out| put_closing(&texts[..size], out))?;
    }
    Ok(())
}
