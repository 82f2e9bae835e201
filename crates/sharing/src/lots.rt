ghost use Rattle.std.specs.Prelude.{◌≡◌, ℕ};

use super::claim::Claim;

// What stands for a number of lots.
pub trait Lots {
    ghost lots_of: { Self → ℕ };

    fn lots(&self) -> u32
        ensures { result ≡ lots_of self.now };
}

impl Lots for u32 {
    ghost lots_of = { λ n. n };

    fn lots(&self) -> u32 {
        *self
    }
}

impl Lots for Claim {
    ghost lots_of = { λ c. c.lots };

    fn lots(&self) -> u32 {
        self.lots
    }
}
