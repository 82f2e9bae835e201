// Refusals and figures of whole runs. The tests stand in a crate of their own, so that the others are not proved twice.
#![tactic(auto)]

#[cfg(test)]
mod tests;
