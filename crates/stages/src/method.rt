// How sellers are paid.
ghost use Rattle.std.specs.Prelude.{◌≡◌, Some, decimal, ok_or};
ghost use Rattle.stages.specs.declared.refusal.Refusal.{Refusal};
ghost use Rattle.stages.specs.Kinds.{method_number, method_at};

use super::refusal::Refusal;
use std::fmt;

#[derive(Clone, Copy, PartialEq, Eq, Debug)]
pub enum Method {
    OnePrice = 1,
    AsOffered = 2,
}

impl Method {
    // Answers the number of the method.
    pub fn number(self) -> u8
        ensures { result ≡ method_number self }
    {
        self as u8
    }
}

// Reads a method by its number.
impl TryFrom<u8> for Method {
    type Error = Refusal;

    ghost try_from_gives = { λ number r. r ≡ ok_or (method_at number) Refusal.Term };

    fn try_from(number: u8) -> Result<Self, Refusal> {
        match number {
            1 => Ok(Method::OnePrice),
            2 => Ok(Method::AsOffered),
            _ => Err(Refusal::Term),
        }
    }
}

// Writes a method by its number.
impl fmt::Display for Method {
    ghost output = { λ method. Some (decimal (method_number method)) };

    fn fmt<W: fmt::Write>(&self, f: &mut fmt::Formatter<W>) -> fmt::Result {
        write!(f, "{}", self.number())
    }
}
