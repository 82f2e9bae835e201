// Examples of the ordered list, run as tests.
#![tactic(auto)]

#[cfg(test)]
mod tests;
