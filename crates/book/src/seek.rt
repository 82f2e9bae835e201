// The search for a standing offer.
ghost use Rattle.std.specs.Prelude.{◌≡◌, None, MatchOption, position};
ghost use Rattle.book.specs.Finding.{Without, Own};
ghost use Rattle.book.specs.Model.{has_number, model_of, space, standing, StandsAt};

use super::book::{Book, PLACES};
use super::offer::Offer;

impl<'a> Book<'a> {
    // Answers the first offer with the number, and its index. A book on another number of records than 512 has none.
    pub(crate) fn seek(&self, number: u16) -> Option<(usize, Offer)>
        ensures { MatchOption result (standing (space self.now) (model_of self.now).list number ≡ None) (StandsAt (space self.now) (model_of self.now).list number) }
    {
        if self.list.capacity() != PLACES {
            return None;
        }
        let at = self.place(number)?;
        Some((at, self.offers()[at]))
    }

    // Answers the index of the first offer with the number.
    fn place(&self, number: u16) -> Option<usize>
        ensures { result ≡ position (has_number number) (model_of self.now).list }
    {
        self.offers()
            .iter()
            .position(|offer| offer.number == number)
    }

    // Answers an offer of the member, if it has one.
    pub(crate) fn of_member(&self, member: [u8; 4]) -> Option<&Offer>
        ensures { MatchOption result (Without member (model_of self.now).list) (λ o. Own member (model_of self.now).list o.now) }
    {
        self.offers().iter().find(|offer| offer.is_of(member))
    }
}
