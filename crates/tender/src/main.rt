// Runs the tender of a file, and prints its log line, or the line of the fault that the file comes to.
#![tactic(auto)]

ghost use Rattle.std.specs.Prelude.{◌≡◌};
ghost use Rattle.std.specs.Process.{exit_status};
ghost use Rattle.command.specs.Ending.{Printed};
ghost use Rattle.lines.specs.Log.{line_of};

use command::run;
use lines::LogLine;
use std::process::ExitCode;

// Answers the input by its log line.
fn answer(rt: &HostRuntime) -> ExitCode
    ensures { exit_status result ≡ 0 → Printed line_of }
{
    run::<LogLine>(rt, "tender")
}

fn main(rt: HostRuntime) -> ExitCode {
    answer(&rt)
}
