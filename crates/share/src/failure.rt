ghost use Rattle.std.specs.Prelude.{◌≡◌};
ghost use Rattle.share.specs.declared.failure.Failure.TheVariants.{Usage, Refused as Turned, Memory};

use sharing::Refusal;
use std::alloc::{AllocError, AllocFailed};
use std::io;
use std::num::ParseIntError;

// Why the program ends without shares.
#[derive(Drop)]
pub enum Failure {
    // the arguments are no such words or numbers
    Usage,
    // the draw or the claims are refused
    Refused(Refusal),
    // there is not memory enough
    Memory,
    // nothing can be read or written
    Io,
}

impl Failure {
    // Says what failed, a refusal on standard output and the rest on standard error, and hands it on.
    pub fn told(self, rt: &HostRuntime) -> Failure
        ensures { result ≡ self }
    {
        let _ = match &self {
            Failure::Usage => eprintln!(rt;
                "usage: share RULE AMOUNT STRIDE SHIFT LOTS...  with RULE proportional, remainder or time"
            ),
            Failure::Refused(refusal) => {
                let number = refusal.number();
                println!(rt; "refused {number}")
            }
            Failure::Memory => eprintln!(rt; "out of memory"),
            Failure::Io => eprintln!(rt; "input or output failed"),
        };
        self
    }
}

impl From<io::Error> for Failure {
    // An argument that is no text is no such word.
    fn from(error: io::Error) -> Failure {
        match error.kind() {
            io::ErrorKind::InvalidData => Failure::Usage,
            io::ErrorKind::OutOfMemory => Failure::Memory,
            _ => Failure::Io,
        }
    }
}

// The conversions below are written out, since each says what it gives, which a derived one does not.

impl From<ParseIntError> for Failure {
    ghost from_gives = { λ _ r. r ≡ Usage };

    fn from(_error: ParseIntError) -> Failure {
        Failure::Usage
    }
}

impl From<AllocError> for Failure {
    ghost from_gives = { λ _ r. r ≡ Memory };

    fn from(_error: AllocError) -> Failure {
        Failure::Memory
    }
}

impl<T: Drop> From<AllocFailed<T>> for Failure {
    ghost from_gives = { λ _ r. r ≡ Memory };

    fn from(_error: AllocFailed<T>) -> Failure {
        Failure::Memory
    }
}

impl From<Refusal> for Failure {
    ghost from_gives = { λ e r. r ≡ Turned e };

    fn from(refusal: Refusal) -> Failure {
        Failure::Refused(refusal)
    }
}
