// What is handed over, not yet trusted.
ghost use Rattle.std.specs.Prelude.{◌≡◌, IfErr};
ghost use Rattle.reference.specs.declared.refusal.Refusal.TheVariants.{Term};

use super::refusal::Refusal;

// The terms of a tender.
#[derive(Clone, Copy, PartialEq, Eq, Debug, Default)]
pub struct Terms {
    // Kind, method and shortfall are as they were handed over, not yet trusted: any other byte than those below is a term refused.
    // G or F
    pub kind: u8,
    // 1 or 2
    pub method: u8,
    // T or V
    pub shortfall: u8,
    // how many shares make a lot
    pub unit: u32,
    pub previous_close: u32,
    pub bank_closing: u32,
}

// General or financing.
#[derive(Clone, Copy, PartialEq, Eq, Debug)]
pub(crate) enum Kind {
    General,
    Financing,
}

// Whether all are paid one price, or each what was offered.
#[derive(Clone, Copy, PartialEq, Eq, Debug)]
pub(crate) enum Method {
    OnePrice,
    AsOffered,
}

// Whether a tender with too few lots offered takes them, or is void.
#[derive(Clone, Copy, PartialEq, Eq, Debug)]
pub(crate) enum Shortfall {
    Taken,
    Void,
}

impl TryFrom<u8> for Kind {
    type Error = Refusal;

    ghost try_from_gives = { λ _ answer. IfErr answer (λ refusal. refusal ≡ Term) };

    fn try_from(letter: u8) -> Result<Self, Refusal> {
        match letter {
            b'G' => Ok(Kind::General),
            b'F' => Ok(Kind::Financing),
            _ => Err(Refusal::Term),
        }
    }
}

impl TryFrom<u8> for Method {
    type Error = Refusal;

    ghost try_from_gives = { λ _ answer. IfErr answer (λ refusal. refusal ≡ Term) };

    fn try_from(number: u8) -> Result<Self, Refusal> {
        match number {
            1 => Ok(Method::OnePrice),
            2 => Ok(Method::AsOffered),
            _ => Err(Refusal::Term),
        }
    }
}

impl TryFrom<u8> for Shortfall {
    type Error = Refusal;

    ghost try_from_gives = { λ _ answer. IfErr answer (λ refusal. refusal ≡ Term) };

    fn try_from(letter: u8) -> Result<Self, Refusal> {
        match letter {
            b'T' => Ok(Shortfall::Taken),
            b'V' => Ok(Shortfall::Void),
            _ => Err(Refusal::Term),
        }
    }
}

impl Kind {
    // The kind of the letter. Filing refuses an unknown one; whoever goes on without it has a financing tender.
    pub(crate) fn of(letter: u8) -> Kind {
        Kind::try_from(letter).unwrap_or(Kind::Financing)
    }
}

// The terms as a tender has them. Filing refuses unknown letters; whoever goes on without it gets the second of the two.
impl Terms {
    pub(crate) fn kind(&self) -> Kind {
        Kind::of(self.kind)
    }

    pub(crate) fn method(&self) -> Method {
        Method::try_from(self.method).unwrap_or(Method::AsOffered)
    }

    pub(crate) fn shortfall(&self) -> Shortfall {
        Shortfall::try_from(self.shortfall).unwrap_or(Shortfall::Void)
    }
}

// A buyer, and the lots that it asks for.
#[derive(Clone, Copy, PartialEq, Eq, Debug, Default)]
pub struct Buyer {
    pub account: u32,
    pub lots: u32,
}

// A claim to lots.
#[derive(Clone, Copy, PartialEq, Eq, Debug, Default)]
pub struct Claim {
    pub number: u32,
    pub lots: u32,
}

// The sizes of the places: for a book's records, for the fills, and for the buyers' rows.
#[derive(Clone, Copy, PartialEq, Eq, Debug)]
pub struct Places {
    pub records: usize,
    pub fills: usize,
    pub rows: usize,
}

// A call to the book.
#[derive(Clone, Copy, PartialEq, Eq, Debug)]
pub enum Call {
    Enter {
        time: u32,
        member: [u8; 4],
        account: u32,
        price: u32,
        lots: u32,
    },
    Change {
        time: u32,
        member: [u8; 4],
        number: u32,
        price: u32,
        lots: u32,
    },
    Cancel {
        time: u32,
        member: [u8; 4],
        number: u32,
    },
}

impl Call {
    // When the call is made.
    pub(crate) fn time(&self) -> u32 {
        match self {
            Call::Enter { time, .. } | Call::Change { time, .. } | Call::Cancel { time, .. } => {
                *time
            }
        }
    }
}
