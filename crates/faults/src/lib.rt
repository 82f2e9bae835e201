// The faults of a tender file, in three layers: its frames, their order, and the rules.
#![tactic(auto)]

pub mod fault;
pub mod layer;

pub use fault::{OrderFault, ProgramFault};
pub use layer::Layer;
