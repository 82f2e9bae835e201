// A tender from filing to closing: its terms, its buyers, and its states as types.
#![tactic(auto)]

pub mod buyers;
mod choices;
pub mod closed;
pub mod filed;
pub mod filing;
pub mod kind;
pub mod method;
pub mod opened;
pub mod particulars;
pub mod refusal;
pub mod shortfall;
mod steps;
pub mod terms;

pub use buyers::has_account;
pub use closed::Closed;
pub use filed::Filed;
pub use filing::file;
pub use kind::{Kind, KindRow};
pub use method::Method;
pub use opened::Open;
pub use particulars::Particulars;
pub use refusal::Refusal;
pub use shortfall::Shortfall;
pub use terms::{Buyer, Terms};
