// What the programs over a tender file share: reading their input, and ending with their answer.
#![tactic(auto)]

mod ending;
mod failure;
mod input;
mod program;

pub use ending::print_answer;
pub use failure::{Failure, told};
pub use input::read_input;
pub use program::{conclude, run};
