// A whole program over a tender file.
ghost use Rattle.std.specs.Prelude.{◌≡◌, OnOk};
ghost use Rattle.std.specs.Process.{exit_status};
ghost use Rattle.command.specs.Ending.{Concludes, Printed};

use super::ending::print_answer;
use super::failure::{Failure, told};
use super::input::read_input;
use lines::{Telling, answer_file};
use std::process::ExitCode;

// Answers the file by what is told of its report, and prints that.
pub fn conclude<T: Telling>(rt: &HostRuntime, file: &[u8]) -> Result<(), Failure>
    ensures { Concludes T.text_of file.now result }
{
    let answer = answer_file::<T>(rt.alloc(), file)?;
    print_answer(rt, &answer)
}

// Reads the input, and answers it.
fn read_and_conclude<T: Telling>(rt: &HostRuntime) -> Result<(), Failure>
    ensures { OnOk result (Printed T.text_of) }
{
    let file = read_input(rt)?;
    conclude::<T>(rt, file.as_slice())
}

// Runs the program of the name: reads its input, answers it, and ends with status 0, or says why not and ends with status 1.
pub fn run<T: Telling>(rt: &HostRuntime, program: &str) -> ExitCode
    ensures { exit_status result ≡ 0 → Printed T.text_of }
{
    match told(rt, program, read_and_conclude::<T>(rt)) {
        Ok(()) => ExitCode::SUCCESS,
        Err(_) => ExitCode::FAILURE,
    }
}
