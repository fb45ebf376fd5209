// The command gatelog: it lists the events of a gateway's log, and ends with the status that gatelog_main answers.
#![tactic(auto)]

use gatelog::gatelog_main;
use std::process::ExitCode;

fn main(rt: HostRuntime) -> ExitCode {
    let status = gatelog_main(&rt, &mut rt.stdout(), &mut rt.stderr());
    ExitCode::from(status)
}
