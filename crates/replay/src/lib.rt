// A tender file from its bytes to a report or a fault.
#![tactic(auto)]

mod heading;
mod reading;
mod report;
mod running;
mod whole;

pub use report::Report;
pub use whole::run;
