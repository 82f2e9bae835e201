// Why the program ends without a whole file.
ghost use Rattle.std.specs.Prelude.{◌≡◌, Some};
ghost use Rattle.encode.specs.declared.failure.Failure.TheVariants.{Memory};
ghost use Rattle.encode.specs.Failures.{failure_words};

use frames::WriteFault;
use std::alloc::AllocError;
use std::{fmt, io};

#[derive(Clone, Copy, PartialEq, Eq, Debug)]
pub enum Failure {
    // the line of that number, counted from 1, says no frame
    Line(usize),
    // the text has more bytes than are read
    TooLong,
    // there is not memory enough
    Memory,
    // nothing can be read or written
    Io,
}

// Writes what failed.
impl fmt::Display for Failure {
    ghost output = { λ failure. Some (failure_words failure) };

    fn fmt<W: fmt::Write>(&self, f: &mut fmt::Formatter<W>) -> fmt::Result {
        match self {
            Failure::Line(number) => write!(f, "line {number}: no such frame"),
            Failure::TooLong => f.write_str("the text has over 1048576 bytes"),
            Failure::Memory => f.write_str("out of memory"),
            Failure::Io => f.write_str("input or output failed"),
        }
    }
}

impl From<io::Error> for Failure {
    fn from(error: io::Error) -> Failure {
        match error.kind() {
            io::ErrorKind::OutOfMemory => Failure::Memory,
            _ => Failure::Io,
        }
    }
}

// Written out, as below, since the clauses of what encodes read `from_gives`, which no derive gives.
impl From<AllocError> for Failure {
    ghost from_gives = { λ _ r. r ≡ Memory };

    fn from(_error: AllocError) -> Failure {
        Failure::Memory
    }
}

// No message is too long for its frame, so memory was wanting.
impl From<WriteFault> for Failure {
    ghost from_gives = { λ _ r. r ≡ Memory };

    fn from(_error: WriteFault) -> Failure {
        Failure::Memory
    }
}
