// Why there is no whole key.
ghost use Rattle.std.specs.Prelude.{◌≡◌};
ghost use Rattle.runner.specs.declared.error.RunError.TheVariants.{ReadFailed, WriteFailed};

use std::error::Error;
use std::fmt;
use streams::reading::Unread;
use streams::writing::Unwritten;

#[derive(Clone, Copy, Debug, PartialEq, Eq)]
pub enum RunError {
    NotStarted,
    ReadFailed,
    WriteFailed,
    TapeTooLong,
}

impl fmt::Display for RunError {
    fn fmt<W: fmt::Write>(&self, f: &mut fmt::Formatter<W>) -> fmt::Result {
        f.write_str(match self {
            RunError::NotStarted => "the board was not started",
            RunError::ReadFailed => "the tape could not be read to its end",
            RunError::WriteFailed => "the key could not be written whole",
            RunError::TapeTooLong => "the tape is too long",
        })
    }
}

impl Error for RunError {}

impl From<Unread> for RunError {
    ghost from_gives = { λ _ e. e ≡ ReadFailed };

    fn from(_: Unread) -> RunError {
        RunError::ReadFailed
    }
}

impl From<Unwritten> for RunError {
    ghost from_gives = { λ _ e. e ≡ WriteFailed };

    fn from(_: Unwritten) -> RunError {
        RunError::WriteFailed
    }
}
