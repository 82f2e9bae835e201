// Each refusal of a tender and its book, met once. The tests stand in a crate of their own, so that theirs is not proved twice.
#![tactic(auto)]

#[cfg(test)]
mod tests;
