// Tender files on examples. The tests stand in a crate of their own, so that theirs is not proved twice.
#![tactic(auto)]

#[cfg(test)]
mod tests;
