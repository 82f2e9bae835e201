// Entries.
ghost use Rattle.std.specs.Prelude.{◌≡◌, IfOk};
ghost use Rattle.stages.specs.Register.{code_of};
ghost use Rattle.book.specs.Judgement.{entry_code};
ghost use Rattle.book.specs.Kept.{Kept};
ghost use Rattle.book.specs.Model.{model_of, space};
ghost use Rattle.book.specs.Soundness.{Sound};
ghost use Rattle.book.specs.Told.{entered};

use super::book::Book;
use super::offer::Offer;
use stages::{Buyer, Open, Refusal};

// What a member enters.
#[derive(Clone, Copy, PartialEq, Eq, Debug)]
pub struct Entry {
    // in seconds since midnight
    pub time: u32,
    pub member: [u8; 4],
    pub account: u32,
    pub price: u32,
    pub lots: u32,
}

impl<'a> Book<'a> {
    // Takes an entry and answers its number, or refuses it. The buyers are those that the tender was filed for.
    pub fn enter(&mut self, tender: &Open, entry: Entry, buyers: &[Buyer]) -> Result<u16, Refusal>
        ensures code { code_of result ≡ entry_code tender.now (space self.old) (model_of self.old) entry buyers.now }
        ensures number { IfOk result (λ n. n ≡ (model_of self.old).count) }
        ensures state { Sound (model_of self.old) → model_of self.new ≡ entered tender.now (space self.old) (model_of self.old) entry buyers.now }
        ensures kept { Kept self.old self.new result }
    {
        self.judge_entry(tender, entry, buyers)?;
        let Entry {
            time,
            member,
            account,
            price,
            lots,
        } = entry;
        let number = self.accepted;
        let _placed = self.list.insert(Offer {
            number,
            member,
            account,
            price,
            lots,
        });
        self.accepted = number + 1;
        self.latest = time;
        Ok(number)
    }
}
