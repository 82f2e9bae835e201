// A call to the book, of whichever kind.
ghost use Rattle.std.specs.Prelude.{◌≡◌, IfOk, replicate};
ghost use Rattle.book.specs.declared.call.Call.TheVariants.{Cancel as Cancels};
ghost use Rattle.stages.specs.Register.{code_of};
ghost use Rattle.book.specs.Kept.{Kept};
ghost use Rattle.book.specs.Model.{model_of, space};
ghost use Rattle.book.specs.Soundness.{Sound};
ghost use Rattle.book.specs.Told.{call_code, given, told};

use super::book::Book;
use super::cancel::Cancellation;
use super::change::Change;
use super::entry::Entry;
use stages::{Buyer, Open, Refusal};

#[derive(Clone, Copy, PartialEq, Eq, Debug)]
pub enum Call {
    Enter(Entry),
    Change(Change),
    Cancel(Cancellation),
}

// What stands in a place for a call at first: a cancellation by no member.
impl Default for Call {
    ghost is_default = { λ c. c ≡ Cancels (record { time = 0; member = replicate 4 0; number = 0 }) };

    fn default() -> Call {
        Call::Cancel(Cancellation::default())
    }
}

impl<'a> Book<'a> {
    // Makes the call, and answers the number that an entry is given. The buyers are those that the tender was filed for.
    pub fn apply(
        &mut self,
        tender: &Open,
        call: Call,
        buyers: &[Buyer],
    ) -> Result<Option<u16>, Refusal>
        ensures code { code_of result ≡ call_code tender.now (space self.old) (model_of self.old) call buyers.now }
        ensures number { IfOk result (λ n. n ≡ given (model_of self.old) call) }
        ensures state { Sound (model_of self.old) → model_of self.new ≡ told tender.now (space self.old) (model_of self.old) call buyers.now }
        ensures kept { Kept self.old self.new result }
    {
        match call {
            Call::Enter(entry) => self.enter(tender, entry, buyers).map(Some),
            Call::Change(change) => self.change(tender, change).map(|()| None),
            Call::Cancel(cancellation) => self.cancel(tender, cancellation).map(|()| None),
        }
    }
}
