// What is told of a report: its log line, or its statement.
ghost use Rattle.std.specs.Prelude.{◌≡◌, ℕ, List, IfOk, string_bytes};
ghost use Rattle.replay.specs.declared.report.Report.{Report as Reported};
ghost use Rattle.lines.specs.Log.{line_of};
ghost use Rattle.lines.specs.Statement.{statement_of};

use super::log::line;
use super::statements::statement;
use replay::Report;
use std::alloc::{AllocError, Global};

pub trait Telling {
    // The text of a report.
    ghost text_of: { Reported → List ℕ };

    // Writes the text of the report.
    fn tell(heap: Global, report: &Report) -> Result<String, AllocError>
        ensures { IfOk result (λ s. string_bytes s ≡ text_of report.now) };
}

pub struct LogLine;

impl Telling for LogLine {
    ghost text_of = { line_of };

    fn tell(heap: Global, report: &Report) -> Result<String, AllocError> {
        line(heap, report)
    }
}

pub struct Statement;

impl Telling for Statement {
    ghost text_of = { statement_of };

    fn tell(heap: Global, report: &Report) -> Result<String, AllocError> {
        statement(heap, report)
    }
}
