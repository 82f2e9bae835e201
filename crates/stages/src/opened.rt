// A tender that takes calls.
ghost use Rattle.std.specs.Prelude.{◌≡◌, ◌≤◌};

use super::particulars::Particulars;

#[derive(Drop)]
pub struct Open {
    pub(crate) particulars: Particulars,
    // the base price, in cents per share
    pub(crate) base: u32,
    ghost bases: { base ≤ 920000 },
}

impl Open {
    // Answers the tender's particulars.
    pub fn particulars(&self) -> Particulars
        ensures { result ≡ self.now.particulars }
    {
        self.particulars
    }

    // Answers the base price.
    pub fn base_price(&self) -> u32
        ensures { result ≡ self.now.base }
    {
        self.base
    }
}
