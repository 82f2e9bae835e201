// A whole tender: every call in turn on a fresh book, the closing, and the allotment.
#![tactic(auto)]

mod by_kind;
mod calls;
mod running;
mod session;
mod standing;

pub use by_kind::run_by_kind;
pub use running::{Outcome, run};
pub use session::Session;
