// The rules that calls of more than one kind are held to.
ghost use Rattle.std.specs.Prelude.{◌≡◌, IfOk};
ghost use Rattle.stages.specs.Register.{code_of};
ghost use Rattle.book.specs.Judgement.{time_code, size_code, owner_code};
ghost use Rattle.book.specs.Model.{model_of, space, standing, StandsAt};

use super::book::Book;
use super::offer::Offer;
use stages::{Open, Refusal};

// Refuses a price that is 0 or above the base price, and lots that are none or above 1,000,000.
pub(crate) fn check_size(tender: &Open, price: u32, lots: u32) -> Result<(), Refusal>
    ensures { code_of result ≡ size_code tender.now price lots }
{
    if price == 0 || price > tender.base_price() {
        return Err(Refusal::Price);
    }
    if lots == 0 || lots > 1_000_000 {
        return Err(Refusal::Lots);
    }
    Ok(())
}

impl<'a> Book<'a> {
    // Refuses a time that is outside the window or before the latest accepted call.
    pub(crate) fn check_time(&self, tender: &Open, time: u32) -> Result<(), Refusal>
        ensures { code_of result ≡ time_code tender.now (model_of self.now) time }
    {
        if !tender.particulars().kind.is_open_at(time) {
            return Err(Refusal::OutsideWindow);
        }
        if time < self.latest {
            return Err(Refusal::BeforeLatest);
        }
        Ok(())
    }

    // Answers the member's offer with the number and where it stands, or refuses a number that none or another member has.
    pub(crate) fn seek_own(&self, number: u16, member: [u8; 4]) -> Result<(usize, Offer), Refusal>
        ensures code { code_of result ≡ owner_code (standing (space self.now) (model_of self.now).list number) member }
        ensures place { IfOk result (StandsAt (space self.now) (model_of self.now).list number) }
    {
        let Some((at, offer)) = self.seek(number) else {
            return Err(Refusal::NoOffer);
        };
        if !offer.is_of(member) {
            return Err(Refusal::OtherMember);
        }
        Ok((at, offer))
    }
}
