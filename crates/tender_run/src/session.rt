// What is told of an open tender.
use book::Call;
use stages::Buyer;

// The calls on an open tender, in the order in which they come, the buyers that it was filed for, and when it is closed.
#[derive(Clone, Copy)]
pub struct Session<'a> {
    pub calls: &'a [Call],
    pub buyers: &'a [Buyer],
    // in seconds since midnight
    pub closing: u32,
}
