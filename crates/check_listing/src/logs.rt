// Logs of events made by hand, listed in two pages.
use check_text::events::event_block;
use listing::{put_closing, put_head, put_lines};
use std::io;
use std::io::Write;

// Noon on 29 February 2000.
const LEAP_DAY: u32 = 5_140_800;

// The last second of February 2100, which has 28 days, and the one after.
const LAST_SECOND: u32 = 3_160_857_599;

const MARCH: u32 = 3_160_857_600;

// 2026-05-04 13:00:07.
const MAY: u32 = 831_214_807;

// The texts. Those at 4, 7, 8 and 11 are not readable.
fn twelve_texts() -> [[u8; 16]; 12] {
    [
        [0, 0, 14, 16, 4, 32, 0, 2, 255, 255, 255, 255, 0, 0, 0, 7],
        event_block(0, 56, 31, 65535, 0x8000_0000, 0xffff_ffff),
        event_block(0xffff_ffff, 208, 96, 256, 0x7fff_ffff, 0),
        event_block(LEAP_DAY, 0, 0, 3, 0, 1_000_000_000),
        event_block(MAY, 57, 1, 3, 412, 17),
        event_block(LAST_SECOND, 0, 1, 3, 412, 18),
        event_block(MARCH, 1, 63, 9999, 0xffff_ff38, 19),
        event_block(MAY, 8, 128, 3, 412, 20),
        event_block(MAY, 207, 255, 3, 412, 21),
        event_block(MAY, 8, 64, 10, 9, 22),
        event_block(MAY + 60, 255, 127, 3, 10, 23),
        event_block(MAY, 128, 2, 3, 412, 24),
    ]
}

// What a call has put in front of its buffer.
fn show<W: Write>(to: &mut W, out: &[u8], count: Option<usize>) -> io::Result<()> {
    match out.get(..count.unwrap_or(0)) {
        Some(text) => to.write_all(text),
        None => writeln!(to, "LONGER THAN ITS BUFFER"),
    }
}

fn list_pages<W: Write>(to: &mut W, texts: &[[u8; 16]], page: usize) -> io::Result<()> {
    let mut out = [0u8; 2048];
    for (from, upto) in [(0, page), (page, texts.len())] {
        let count = put_lines(texts.as_flattened(), from, upto, &mut out);
        show(to, &out, count)?;
    }
    Ok(())
}

// The whole listing, with a second page from a place on.
fn list<W: Write>(to: &mut W, name: &str, texts: &[[u8; 16]], page: usize) -> io::Result<()> {
    let mut out = [0u8; 256];
    writeln!(to, "{name}")?;
    let count = put_head(&mut out);
    show(to, &out, count)?;
    list_pages(to, texts, page)?;
    let count = put_closing(texts.as_flattened(), &mut out);
    show(to, &out, count)
}

pub fn all<W: Write>(to: &mut W) -> io::Result<()> {
    let texts = twelve_texts();
    list(to, "twelve texts", &texts, 5)?;
    list(to, "three texts, the first not readable", &texts[4..7], 3)?;
    list(to, "two texts, both readable", &texts[9..11], 0)?;
    list(to, "no text", &[], 0)
}
