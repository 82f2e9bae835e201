// The log line of a run.
ghost use Rattle.std.specs.Prelude.{◌≡◌, IfOk, string_bytes};
ghost use Rattle.lines.specs.Log.{BookALine, line_of};

use super::choices::Choices;
use super::figures::Figures;
use replay::Report;
use std::alloc::{AllocError, Global};

// Writes the log line of the report: kind, method, shortfall, due, marginal price, receipts, fee, accepted and refused calls.
pub fn line(heap: Global, report: &Report) -> Result<String, AllocError>
    ensures line { IfOk result (λ s. string_bytes s ≡ line_of report.now) }
    ensures worked { BookALine }
{
    let choices = Choices(report.particulars);
    let figures = Figures(report.outcome.allotted);
    let accepted = report.outcome.accepted;
    let refused = report.outcome.refused;
    format!(in heap; "{choices} {figures} accepted {accepted} refused {refused}\n")
}
