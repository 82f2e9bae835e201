// The kinds of tender, and what is fixed for each.
ghost use Rattle.std.specs.Prelude.{◌≡◌, [], ◌∷◌, Some, ok_or};
ghost use Rattle.stages.specs.declared.refusal.Refusal.{Refusal};
ghost use Rattle.stages.specs.Kinds.{row_of, kind_at, allows, open_at, over_at};

use super::method::Method;
use super::refusal::Refusal;
use super::shortfall::Shortfall;
use std::fmt;

#[derive(Clone, Copy, PartialEq, Eq, Debug)]
pub enum Kind {
    General,
    Financing,
}

// What is fixed for a kind.
#[derive(Clone, Copy, PartialEq, Eq, Debug)]
pub struct KindRow {
    pub letter: u8,
    // the first and the last second of its window
    pub opens: u32,
    pub ends: u32,
    // the least and the most that a base price may be, in hundredths of the previous close
    pub least: u32,
    pub most: u32,
    // how many buyers it may have
    pub buyers: usize,
}

// The last second of a day.
const DAY_ENDS: u32 = 86_399;

impl Kind {
    // Answers what is fixed for the kind.
    pub fn row(self) -> KindRow
        ensures { result ≡ row_of self }
    {
        match self {
            Kind::General => KindRow {
                letter: b'G',
                opens: 54_000,
                ends: 57_599,
                least: 85,
                most: 115,
                buyers: 1,
            },
            Kind::Financing => KindRow {
                letter: b'F',
                opens: 52_200,
                ends: 53_999,
                least: 107,
                most: 115,
                buyers: 8,
            },
        }
    }

    // Answers whether a tender of the kind may have the method and the shortfall.
    pub(crate) fn allows(self, method: Method, shortfall: Shortfall) -> bool
        ensures { result ≡ allows self method shortfall }
    {
        matches!(
            (self, method, shortfall),
            (Kind::General, _, _) | (Kind::Financing, Method::AsOffered, Shortfall::Take)
        )
    }

    // Answers whether the time is in the window.
    pub fn is_open_at(self, time: u32) -> bool
        ensures { result ≡ open_at self time }
    {
        let row = self.row();
        (row.opens..=row.ends).contains(&time)
    }

    // Answers whether the time is after the window, and within the day.
    pub fn is_over_at(self, time: u32) -> bool
        ensures { result ≡ over_at self time }
    {
        self.row().ends < time && time <= DAY_ENDS
    }
}

// Reads a kind by its letter.
impl TryFrom<u8> for Kind {
    type Error = Refusal;

    ghost try_from_gives = { λ letter r. r ≡ ok_or (kind_at letter) Refusal.Term };

    fn try_from(letter: u8) -> Result<Self, Refusal> {
        match letter {
            b'G' => Ok(Kind::General),
            b'F' => Ok(Kind::Financing),
            _ => Err(Refusal::Term),
        }
    }
}

// Writes a kind by its letter.
impl fmt::Display for Kind {
    ghost output = { λ kind. Some ((row_of kind).letter ∷ []) };

    fn fmt<W: fmt::Write>(&self, f: &mut fmt::Formatter<W>) -> fmt::Result {
        f.write_char(char::from(self.row().letter))
    }
}
