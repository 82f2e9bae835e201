// Settlement of a tender: bills, slips, and what a late payment or a default costs.
#![tactic(auto)]

mod billing;
mod charge;
mod receipt;
mod slip;

pub use billing::{bill, unbilled_total};
pub use charge::{is_breach, late_charge};
pub use receipt::Receipt;
pub use slip::Slip;
