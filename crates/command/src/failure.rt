// Why a program ends with status 1.
ghost use Rattle.std.specs.Prelude.{◌≡◌};
ghost use Rattle.command.specs.declared.failure.Failure.TheVariants.{Io as InputOrOutput, Memory as OutOfMemory};

use std::alloc::AllocError;
use std::io;

#[derive(Drop)]
pub enum Failure {
    // there is more than one argument
    Usage,
    // the file comes to a fault, which was printed
    Fault,
    // there is not memory enough
    Memory,
    // the input cannot be read, or the answer not printed
    Io(io::Error),
}

// Says on standard error why the program failed, unless its answer told of it.
fn say(rt: &HostRuntime, program: &str, failure: &Failure) -> io::Result<()> {
    match failure {
        Failure::Usage => eprintln!(rt; "usage: {program} [FILE]"),
        Failure::Fault => Ok(()),
        Failure::Memory => eprintln!(rt; "{program}: out of memory"),
        Failure::Io(error) => eprintln!(rt; "{program}: {error}"),
    }
}

// Says on standard error why the program failed, if it did, and hands on how it ended.
pub fn told(rt: &HostRuntime, program: &str, ended: Result<(), Failure>) -> Result<(), Failure>
    ensures { result ≡ ended }
{
    if let Err(failure) = &ended {
        let _ = say(rt, program, failure);
    }
    ended
}

// Written out, as below, since the clauses of what uses `?` cite `from_gives`, which no derive gives.
impl From<AllocError> for Failure {
    ghost from_gives = { λ _ r. r ≡ OutOfMemory };

    fn from(_error: AllocError) -> Failure {
        Failure::Memory
    }
}

impl From<io::Error> for Failure {
    ghost from_gives = { λ e r. r ≡ InputOrOutput e };

    fn from(error: io::Error) -> Failure {
        Failure::Io(error)
    }
}
