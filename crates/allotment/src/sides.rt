// Both sides of an allotment.

// What serves the sellers, and what serves the buyers: loans of two rules, or two draws.
#[derive(Drop)]
pub struct Sides<S, B> {
    pub sellers: S,
    pub buyers: B,
}
