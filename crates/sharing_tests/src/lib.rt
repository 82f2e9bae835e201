// Examples of the sharing rules and draws, run as tests.
#![tactic(auto)]

#[cfg(test)]
mod tests;
