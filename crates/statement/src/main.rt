// Runs the tender of a file, and prints its statement, or the line of the fault that the file comes to.
#![tactic(auto)]

ghost use Rattle.std.specs.Prelude.{◌≡◌};
ghost use Rattle.std.specs.Process.{exit_status};
ghost use Rattle.command.specs.Ending.{Printed};
ghost use Rattle.lines.specs.Statement.{statement_of};

use command::run;
use lines::Statement;
use std::process::ExitCode;

// Answers the input by its statement.
fn answer(rt: &HostRuntime) -> ExitCode
    ensures { exit_status result ≡ 0 → Printed statement_of }
{
    run::<Statement>(rt, "statement")
}

fn main(rt: HostRuntime) -> ExitCode {
    answer(&rt)
}
