ghost use Rattle.std.specs.Prelude.{◌≡◌};
ghost use Rattle.hall.specs.declared.trouble.Trouble.TheVariants.{Io, OutOfMemory};
ghost use Rattle.hall.specs.Commands.{told};

use std::alloc::AllocError;
use std::{fmt, io};

/// Why the program has no answer.
#[derive(Debug, Drop)]
pub enum Trouble {
    /// No word asks for anything.
    NoCommand,
    TooManyWords,
    /// No command has the word.
    UnknownCommand(String),
    /// The file at the path cannot be read.
    Unreadable { path: String, why: io::Error },
    /// Standard input cannot be read, or standard output cannot be written.
    Io(io::Error),
    OutOfMemory,
}

impl fmt::Display for Trouble {
    ghost output = { told };

    fn fmt<W: fmt::Write>(&self, f: &mut fmt::Formatter<W>) -> fmt::Result {
        match self {
            Trouble::NoCommand => write!(f, "no command: see 'hall --help'"),
            Trouble::TooManyWords => write!(f, "too many words: see 'hall --help'"),
            Trouble::UnknownCommand(word) => {
                write!(f, "unknown command '{word}': see 'hall --help'")
            }
            Trouble::Unreadable { path, why } => write!(f, "cannot read {path}: {why}"),
            Trouble::Io(why) => write!(f, "{why}"),
            Trouble::OutOfMemory => write!(f, "memory allocation failed"),
        }
    }
}

impl From<io::Error> for Trouble {
    ghost from_gives = { λ error r. r ≡ Io error };

    fn from(error: io::Error) -> Trouble {
        Trouble::Io(error)
    }
}

impl From<AllocError> for Trouble {
    ghost from_gives = { λ _ r. r ≡ OutOfMemory };

    fn from(_e: AllocError) -> Trouble {
        Self::OutOfMemory
    }
}
