// What happens where the offers are fewer than the demand.
ghost use Rattle.std.specs.Prelude.{◌≡◌, [], ◌∷◌, Some, ok_or};
ghost use Rattle.stages.specs.declared.refusal.Refusal.{Refusal};
ghost use Rattle.stages.specs.Kinds.{shortfall_letter, shortfall_at};

use super::refusal::Refusal;
use std::fmt;

#[derive(Clone, Copy, PartialEq, Eq, Debug)]
pub enum Shortfall {
    Take,
    Void,
}

impl Shortfall {
    // Answers the letter of the shortfall.
    pub fn letter(self) -> u8
        ensures { result ≡ shortfall_letter self }
    {
        match self {
            Shortfall::Take => b'T',
            Shortfall::Void => b'V',
        }
    }
}

// Reads a shortfall by its letter.
impl TryFrom<u8> for Shortfall {
    type Error = Refusal;

    ghost try_from_gives = { λ letter r. r ≡ ok_or (shortfall_at letter) Refusal.Term };

    fn try_from(letter: u8) -> Result<Self, Refusal> {
        match letter {
            b'T' => Ok(Shortfall::Take),
            b'V' => Ok(Shortfall::Void),
            _ => Err(Refusal::Term),
        }
    }
}

// Writes a shortfall by its letter.
impl fmt::Display for Shortfall {
    ghost output = { λ shortfall. Some (shortfall_letter shortfall ∷ []) };

    fn fmt<W: fmt::Write>(&self, f: &mut fmt::Formatter<W>) -> fmt::Result {
        f.write_char(char::from(self.letter()))
    }
}
