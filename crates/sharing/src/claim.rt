ghost use Rattle.std.specs.Prelude.{◌≡◌};
ghost use Rattle.sharing.specs.Claims.{within_limits};

use super::numbered::Numbered;

// A claim to lots, under a number from 0 to 511.
#[derive(Clone, Copy, PartialEq, Eq, Debug, Default)]
pub struct Claim {
    pub number: u16,
    pub lots: u32,
}

impl Claim {
    // Whether the number is at most 511, and the lots are from 1 to 1,000,000.
    pub fn is_within_limits(self) -> bool
        ensures { result ≡ within_limits self }
    {
        self.number <= 511 && self.lots >= 1 && self.lots <= 1_000_000
    }
}

impl Numbered for Claim {
    ghost numbered = { λ c. c.number };

    fn number(&self) -> u16 {
        self.number
    }
}
