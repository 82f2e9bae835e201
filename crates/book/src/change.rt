// Changes.
ghost use Rattle.std.specs.Prelude.{◌≡◌};
ghost use Rattle.stages.specs.Register.{code_of};
ghost use Rattle.book.specs.Judgement.{change_code};
ghost use Rattle.book.specs.Kept.{Kept};
ghost use Rattle.book.specs.Model.{model_of, space};
ghost use Rattle.book.specs.Told.{changed};

use super::book::Book;
use stages::{Open, Refusal};

// What a member changes of an offer of its own.
#[derive(Clone, Copy, PartialEq, Eq, Debug)]
pub struct Change {
    // in seconds since midnight
    pub time: u32,
    pub member: [u8; 4],
    // the number given at entry
    pub number: u16,
    pub price: u32,
    pub lots: u32,
}

impl<'a> Book<'a> {
    // Gives the offer its new price and lots and puts it behind all others at its price, or refuses the change.
    pub fn change(&mut self, tender: &Open, change: Change) -> Result<(), Refusal>
        ensures code { code_of result ≡ change_code tender.now (space self.old) (model_of self.old) change }
        ensures state { model_of self.new ≡ changed tender.now (space self.old) (model_of self.old) change }
        ensures kept { Kept self.old self.new result }
    {
        let (at, mut offer) = self.judge_change(tender, change)?;
        offer.price = change.price;
        offer.lots = change.lots;
        let _gone = self.list.remove(at);
        let _placed = self.list.insert(offer);
        self.latest = change.time;
        Ok(())
    }
}
