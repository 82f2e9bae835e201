// What a member can ask of the book.
ghost use Rattle.std.specs.Prelude.{◌≡◌};
ghost use Rattle.book.specs.Finding.{Finds, Shows, sheet_of};
ghost use Rattle.book.specs.Model.{model_of};

use super::book::Book;
use super::offer::Offer;

// An offer as its member sees it.
#[derive(Clone, Copy, PartialEq, Eq, Debug)]
pub struct Sheet {
    pub number: u16,
    pub price: u32,
    pub lots: u32,
}

// What a member sees of an offer.
impl From<&Offer> for Sheet {
    ghost from_gives = { λ offer sheet. sheet ≡ sheet_of offer.now };

    fn from(offer: &Offer) -> Self {
        Sheet {
            number: offer.number,
            price: offer.price,
            lots: offer.lots,
        }
    }
}

impl<'a> Book<'a> {
    // Answers the number of a standing offer of the member, or none if it has none.
    pub fn find(&self, member: [u8; 4]) -> Option<u16>
        ensures { Finds member (model_of self.now).list result }
    {
        self.of_member(member).map(|offer| offer.number)
    }

    // Answers the number, price and lots of the offer that is found for the member, or none if it has none.
    pub fn sheet(&self, member: [u8; 4]) -> Option<Sheet>
        ensures { Shows member (model_of self.now).list result }
    {
        self.of_member(member).map(Sheet::from)
    }
}
