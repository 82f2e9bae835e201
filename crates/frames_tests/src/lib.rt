// Each fault of a file of frames, met once, and each value there and back. The tests stand in a crate of their own, so that
// theirs is not proved twice.
#![tactic(auto)]

#[cfg(test)]
mod tests;
