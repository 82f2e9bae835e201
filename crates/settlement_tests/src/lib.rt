// Bills, charges and defaults on examples. The tests stand in a crate of their own, so that theirs is not proved twice.
#![tactic(auto)]

mod caller;
#[cfg(test)]
mod tests;
