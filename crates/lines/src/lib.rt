// The text that tells of a run: its log line, its fault line, and its statement.
#![tactic(auto)]

mod answers;
mod choices;
mod fault;
mod figures;
mod log;
mod member;
mod statements;
mod telling;

pub use answers::{Answer, answer_file};
pub use fault::fault_line;
pub use log::line;
pub use statements::statement;
pub use telling::{LogLine, Statement, Telling};
