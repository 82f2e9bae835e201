ghost use Rattle.std.specs.Prelude.{◌≡◌};
ghost use Rattle.sharing.specs.Register.{number_of};

// Why a call is refused.
#[derive(Clone, Copy, PartialEq, Eq, Debug)]
pub enum Refusal {
    // over 512 claims, one outside its limits, a number twice, or a place of another length
    Claims,
    // not 512 ranks
    RankCount,
    // two equal ranks
    EqualRanks,
    // an even stride, or a stride or shift above 511
    Stride,
}

impl Refusal {
    // The refusal's number in the register.
    pub fn number(self) -> u8
        ensures { result ≡ number_of self }
    {
        match self {
            Refusal::Claims => 16,
            Refusal::RankCount => 17,
            Refusal::EqualRanks => 18,
            Refusal::Stride => 19,
        }
    }
}
