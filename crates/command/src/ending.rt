// How a program ends.
ghost use Rattle.command.specs.Ending.{Ends};

use super::failure::Failure;
use lines::Answer;

// Prints the answer. One that tells of a fault is a failure.
pub fn print_answer(rt: &HostRuntime, answer: &Answer) -> Result<(), Failure>
    ensures { Ends answer.now result }
{
    let text = answer.text();
    print!(rt; "{text}")?;
    match answer {
        Answer::Report(_) => Ok(()),
        Answer::Fault(_) => Err(Failure::Fault),
    }
}
