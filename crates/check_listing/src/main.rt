// Lists logs of events made by hand, then calls with too little room and with places that are not there. What it must write is in the file stdout.
#![tactic(auto)]

mod logs;
mod rooms;

use std::io;

fn main(rt: HostRuntime) -> io::Result<()> {
    logs::all(&mut rt.stdout())?;
    rooms::all(&mut rt.stdout())
}
