// Cancellations.
ghost use Rattle.std.specs.Prelude.{◌≡◌};
ghost use Rattle.stages.specs.Register.{code_of};
ghost use Rattle.book.specs.Judgement.{cancel_code};
ghost use Rattle.book.specs.Kept.{Kept};
ghost use Rattle.book.specs.Model.{model_of, space};
ghost use Rattle.book.specs.Told.{cancelled};

use super::book::Book;
use stages::{Open, Refusal};

// Which offer of its own a member cancels.
#[derive(Clone, Copy, PartialEq, Eq, Debug, Default)]
pub struct Cancellation {
    // in seconds since midnight
    pub time: u32,
    pub member: [u8; 4],
    // the number given at entry
    pub number: u16,
}

impl<'a> Book<'a> {
    // Removes the offer, or refuses the cancellation.
    pub fn cancel(&mut self, tender: &Open, cancellation: Cancellation) -> Result<(), Refusal>
        ensures code { code_of result ≡ cancel_code tender.now (space self.old) (model_of self.old) cancellation }
        ensures state { model_of self.new ≡ cancelled tender.now (space self.old) (model_of self.old) cancellation }
        ensures kept { Kept self.old self.new result }
    {
        let (at, _) = self.judge_cancel(tender, cancellation)?;
        let _gone = self.list.remove(at);
        self.latest = cancellation.time;
        Ok(())
    }
}
