// Makes each call that the lines of the data say, and compares what it answers. The files of data are those that
// files.txt names. What it must write is in the file stdout: a line of data that is wrong or malformed is said.
#![tactic(auto)]

mod calls;
mod fields;
mod files;
mod lines;
mod values;

use std::io;

fn main(rt: HostRuntime) -> io::Result<()> {
    files::check_list(&rt, &mut rt.stdout(), b"files.txt")
}
