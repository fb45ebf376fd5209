// The lines of a file.
ghost use Rattle.std.specs.Prelude.{◌≡◌, eqb, get_or};
ghost use Rattle.std.specs.Counts.{IsPrefixLen};

use std::io::Read;
use std::rt::Files;
use std::{fs, str};

// A line that begins with a number sign.
pub fn is_comment(line: &[u8]) -> bool
    ensures { result ≡ eqb (get_or line.now 0 0) 35 }
{
    line.starts_with(b"#")
}

// Reads until the buffer is full, the input ends or a read fails, and answers how many bytes there are. Of std's
// methods `read_exact` loses the count, and the others need an allocator.
fn read_full<F: Read>(file: &mut F, buf: &mut [u8]) -> usize
    ensures { IsPrefixLen result buf.new }
{
    let mut size = 0;
    while size < buf.len() {
        match file.read(&mut buf[size..]) {
            Ok(0) | Err(_) => break,
            Ok(more) => size += more,
        }
    }
    size
}

// How much of a file is in the buffer; nothing where the file is missing, empty or too long.
pub fn load<R: Files>(rt: &R, name: &[u8], buf: &mut [u8]) -> usize
    ensures { IsPrefixLen result buf.new }
{
    let Ok(path) = str::from_utf8(name) else {
        return 0;
    };
    let Ok(mut file) = fs::open(rt, path) else {
        return 0;
    };
    let size = read_full(&mut file, buf);
    if size == buf.len() {
        return 0;
    }
    size
}
