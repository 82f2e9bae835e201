// What a tender file is answered by, as text.
ghost use Rattle.std.specs.Prelude.{◌≡◌, IfOk};
ghost use Rattle.lines.specs.Answer.{Answered, text_in};

use super::fault::fault_line;
use super::telling::Telling;
use replay::run;
use std::alloc::{AllocError, Global};

#[derive(Drop)]
pub enum Answer {
    // the text of a report
    Report(String),
    // the line of a fault
    Fault(String),
}

impl Answer {
    // Answers the text, whatever it tells of.
    pub fn text(&self) -> &str
        ensures { result.now ≡ text_in self.now }
    {
        match self {
            Answer::Report(text) | Answer::Fault(text) => text.as_str(),
        }
    }
}

// Answers the file by what is told of its report, or by the line of the fault that it comes to.
pub fn answer_file<T: Telling>(heap: Global, file: &[u8]) -> Result<Answer, AllocError>
    ensures { IfOk result (λ a. Answered T.text_of file.now a) }
{
    match run(file) {
        Ok(report) => Ok(Answer::Report(T::tell(heap, &report)?)),
        Err(fault) => Ok(Answer::Fault(fault_line(heap, &fault)?)),
    }
}
