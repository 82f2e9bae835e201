// Where the two sides are compared.
use super::score::Score;
use std::alloc::Global;

// What differs is printed through the runtime, and what was compared is counted.
#[derive(Drop)]
pub(crate) struct Bench<'a> {
    pub(crate) rt: &'a HostRuntime,
    pub(crate) score: Score,
}

impl Bench<'_> {
    pub(crate) fn heap(&self) -> Global {
        self.rt.alloc()
    }
}
