// The command on many files, with both its outputs on standard output: listings, sentences and statuses.
#![tactic(auto)]

use gatelog::Status;
use std::io;
use std::io::Write;

const LISTED: [(&str, &str); 4] = [
    ("key.txt", "spots.frame"),
    ("spaced.txt", "none.frame"),
    ("key.txt", "-"),
    ("spaced.txt", "full.frame"),
];

const REFUSED_KEYS: [&str; 10] = [
    "nosuch.txt",
    ".",
    "",
    "bad.txt",
    "odd.txt",
    "empty.txt",
    "fifteen.txt",
    "thirty_three.txt",
    "blanks.txt",
    "-",
];

const REFUSED_FRAMES: [&str; 10] = [
    "nosuch.frame",
    "key.txt/spots.frame",
    ".",
    "",
    "empty.frame",
    "short.frame",
    "cut.frame",
    "version.frame",
    "ragged.frame",
    "many.frame",
];

fn end<W: Write>(out: &mut W, status: Status) -> io::Result<()> {
    let number = u8::from(status);
    writeln!(out, "status {number}")
}

// The command's own two writers are two handles of the same stream.
fn list(rt: &HostRuntime, key: &str, frame: &str) -> io::Result<()> {
    let mut out = rt.stdout();
    writeln!(out, "$ gatelog {key} {frame}")?;
    let status = gatelog::run(
        rt,
        &mut out,
        &mut rt.stdout(),
        key.as_bytes(),
        frame.as_bytes(),
    );
    end(&mut out, status)
}

fn main(rt: HostRuntime) -> io::Result<()> {
    for (key, frame) in LISTED {
        list(&rt, key, frame)?;
    }
    for key in REFUSED_KEYS {
        list(&rt, key, "spots.frame")?;
    }
    for frame in REFUSED_FRAMES {
        list(&rt, "key.txt", frame)?;
    }
    let mut out = rt.stdout();
    let status = gatelog::misused(&mut out);
    end(&mut out, status)?;
    let status = gatelog::help(&mut out, &mut rt.stdout());
    end(&mut out, status)
}
