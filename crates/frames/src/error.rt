// Why a run fails.
ghost use Rattle.std.specs.Prelude.{Some};
ghost use Rattle.frames.specs.Messages.{name_of, message_of};

use std::error::Error;
use std::fmt;

// What a program takes on standard input.
#[derive(Clone, Copy, Debug, PartialEq, Eq)]
pub enum Taken {
    Records,
    TypedRules,
}

impl fmt::Display for Taken {
    ghost output = { λ taken. Some (name_of taken) };

    fn fmt<W: fmt::Write>(&self, f: &mut fmt::Formatter<W>) -> fmt::Result {
        match self {
            Taken::Records => write!(f, "records"),
            Taken::TypedRules => write!(f, "typed rules"),
        }
    }
}

// Why a run fails: an argument is given, where none is taken, or standard input or output fails.
#[derive(Clone, Copy, Debug, PartialEq, Eq)]
pub enum RunError {
    ArgumentGiven(Taken),
    ReadFailed,
    WriteFailed,
}

impl fmt::Display for RunError {
    ghost output = { λ error. Some (message_of error) };

    fn fmt<W: fmt::Write>(&self, f: &mut fmt::Formatter<W>) -> fmt::Result {
        match self {
            RunError::ArgumentGiven(taken) => write!(
                f,
                "no arguments are taken: {taken} come on standard input (README.md)"
            ),
            RunError::ReadFailed => write!(f, "standard input cannot be read"),
            RunError::WriteFailed => write!(f, "standard output cannot be written"),
        }
    }
}

impl Error for RunError {}
