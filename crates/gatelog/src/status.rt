// How the command ends.
ghost use Rattle.std.specs.Prelude.{◌≡◌};
ghost use Rattle.std.specs.Process.{exit_status};
ghost use Rattle.gatelog.specs.Statuses.{code};

use std::process::ExitCode;

#[derive(Clone, Copy, Debug, PartialEq, Eq)]
pub enum Status {
    Listed = 0,
    // The key or the frame is refused, or not all was written.
    Refused = 1,
    // The arguments are others than they should be.
    Usage = 2,
}

impl From<Status> for u8 {
    ghost from_gives = { λ status number. number ≡ code status };

    fn from(status: Status) -> u8 {
        status as u8
    }
}

impl From<Status> for ExitCode {
    ghost from_gives = { λ status exit. exit_status exit ≡ code status };

    fn from(status: Status) -> ExitCode {
        ExitCode::from(u8::from(status))
    }
}
