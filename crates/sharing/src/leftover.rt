ghost use Rattle.std.specs.Prelude.{◌≡◌};
ghost use Rattle.sharing.specs.Candidates.{weight};

// Who comes ahead for the lots that are left over.
#[derive(Clone, Copy, PartialEq, Eq, Debug)]
pub enum Leftover {
    // the smaller rank
    ByRank,
    // the larger remainder, and of equal ones the smaller rank
    ByRemainder,
}

impl Leftover {
    // What a remainder counts for: nothing where rank alone decides.
    pub(crate) fn weigh(self, remainder: u32) -> u32
        ensures { result ≡ weight self remainder }
    {
        match self {
            Leftover::ByRank => 0,
            Leftover::ByRemainder => remainder,
        }
    }
}
