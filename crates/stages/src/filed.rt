// A tender that is filed and not yet open.
// Filed, Open and Closed are a type each: with one generic over the state, the base price would still be told of two states, and
// each signature would name the state within the type.
ghost use Rattle.std.specs.Prelude.{◌≡◌};

use super::particulars::Particulars;

#[derive(Drop)]
pub struct Filed {
    pub(crate) particulars: Particulars,
}

impl Filed {
    // Answers the tender's particulars.
    pub fn particulars(&self) -> Particulars
        ensures { result ≡ self.now.particulars }
    {
        self.particulars
    }
}
