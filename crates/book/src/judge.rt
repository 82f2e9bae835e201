// The judgement of each call: the first rule that it breaks, in the order of the numbers.
ghost use Rattle.std.specs.Prelude.{◌≡◌, ◌<◌, IfOk, OnOk};
ghost use Rattle.stages.specs.Register.{code_of};
ghost use Rattle.book.specs.Judgement.{entry_code, change_code, cancel_code};
ghost use Rattle.book.specs.Model.{model_of, space, StandsAt};

use super::book::{Book, PLACES};
use super::cancel::Cancellation;
use super::change::Change;
use super::checks::check_size;
use super::entry::Entry;
use super::offer::Offer;
use stages::{Buyer, Open, Refusal, has_account};

impl<'a> Book<'a> {
    // Refuses an entry that breaks a rule.
    pub(crate) fn judge_entry(
        &self,
        tender: &Open,
        entry: Entry,
        buyers: &[Buyer],
    ) -> Result<(), Refusal>
        ensures code { code_of result ≡ entry_code tender.now (space self.now) (model_of self.now) entry buyers.now }
        ensures room { OnOk result ((self.now.accepted < 512) × (space self.now ≡ 512)) }
    {
        self.check_time(tender, entry.time)?;
        check_size(tender, entry.price, entry.lots)?;
        if has_account(buyers, entry.account) {
            return Err(Refusal::BuyerAccount);
        }
        if self.accepted as usize >= PLACES {
            return Err(Refusal::Full);
        }
        if self.list.capacity() != PLACES {
            return Err(Refusal::Place);
        }
        if !tender.particulars().as_filed(buyers) {
            return Err(Refusal::OtherBuyers);
        }
        Ok(())
    }

    // Answers where the offer to be changed stands, and the offer, or refuses a change that breaks a rule.
    pub(crate) fn judge_change(
        &self,
        tender: &Open,
        change: Change,
    ) -> Result<(usize, Offer), Refusal>
        ensures code { code_of result ≡ change_code tender.now (space self.now) (model_of self.now) change }
        ensures place { IfOk result (StandsAt (space self.now) (model_of self.now).list change.number) }
    {
        self.check_time(tender, change.time)?;
        check_size(tender, change.price, change.lots)?;
        self.seek_own(change.number, change.member)
    }

    // Answers where the offer to be cancelled stands, and the offer, or refuses a cancellation that breaks a rule.
    pub(crate) fn judge_cancel(
        &self,
        tender: &Open,
        cancellation: Cancellation,
    ) -> Result<(usize, Offer), Refusal>
        ensures code { code_of result ≡ cancel_code tender.now (space self.now) (model_of self.now) cancellation }
        ensures place { IfOk result (StandsAt (space self.now) (model_of self.now).list cancellation.number) }
    {
        self.check_time(tender, cancellation.time)?;
        self.seek_own(cancellation.number, cancellation.member)
    }
}
