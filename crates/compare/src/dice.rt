// Numbers that look random and are the same at every run.
ghost use Rattle.std.specs.Prelude.{◌-◌, ◌≤◌};

// A generator of 64 bits, by three shifts.
#[derive(Drop)]
pub(crate) struct Dice {
    state: u64,
}

impl Dice {
    pub(crate) fn new(seed: u64) -> Dice {
        Dice { state: seed }
    }

    fn next(&mut self) -> u64 {
        let mut x = self.state;
        x ^= x << 13;
        x ^= x >> 7;
        x ^= x << 17;
        self.state = x;
        x
    }

    // A number below the limit; 0 where that is 0.
    pub(crate) fn below(&mut self, limit: u32) -> u32
        ensures { result ≤ limit - 1 }
    {
        if limit == 0 {
            return 0;
        }
        let x = self.next() >> 20;
        (x % u64::from(limit)) as u32
    }

    // A number from the first to the last.
    pub(crate) fn between(&mut self, first: u32, last: u32) -> u32 {
        let span = last.saturating_sub(first).saturating_add(1);
        first.saturating_add(self.below(span))
    }

    // True once in so many times.
    pub(crate) fn once_in(&mut self, times: u32) -> bool {
        self.below(times) == 0
    }
}
