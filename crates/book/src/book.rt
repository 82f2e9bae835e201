// The book of standing offers.
ghost use Rattle.std.specs.Prelude.{◌≡◌, length};
ghost use Rattle.std.specs.List.{slice_get};
ghost use Rattle.ordered.specs.Listed.{unused, capacity};
ghost use Rattle.stages.specs.Register.{code_of};
ghost use Rattle.book.specs.Judgement.{place_code};
ghost use Rattle.book.specs.Model.{model_of, fresh, space};
ghost use Rattle.book.specs.Offers.{supplied, capped};
ghost use Rattle.book.specs.Soundness.{Sound};

use super::offer::Offer;
use ordered::OrderedList;
use stages::Refusal;

// How many records a book is handed, and how many entries it takes at most.
pub(crate) const PLACES: usize = 512;

// The standing offers, how many entries were accepted, and the time of the latest accepted call.
// The book keeps no invariant, since it stands over records that are lent: what holds of its offers is `Sound`, a premise of its promises.
#[derive(Drop)]
pub struct Book<'a> {
    pub(crate) list: OrderedList<'a, Offer>,
    pub(crate) accepted: u16,
    pub(crate) latest: u32,
}

impl<'a> Book<'a> {
    // Refuses a place that has not 512 records.
    pub fn check(records: &[Offer]) -> Result<(), Refusal>
        ensures { code_of result ≡ place_code (length records.now) }
    {
        if records.len() != PLACES {
            return Err(Refusal::Place);
        }
        Ok(())
    }

    // Makes an empty book over the records.
    pub fn new(records: &'a mut [Offer]) -> Self
        ensures state { model_of result ≡ fresh }
        ensures space { space result ≡ length records.old }
        ensures unused { unused result.list ≡ records.old }
        ensures sound { Sound (model_of result) }
        ensures named { result.list.items.ghost_name ≡ records.entry.ghost_name }
    {
        Book {
            list: OrderedList::new(records),
            accepted: 0,
            latest: 0,
        }
    }

    // Answers how many offers stand.
    pub fn len(&self) -> usize
        ensures { result ≡ length (model_of self.now).list }
    {
        self.list.len()
    }

    // Answers the standing offers, the cheapest first.
    pub fn offers(&self) -> &[Offer]
        ensures { result.now ≡ (model_of self.now).list }
    {
        self.list.as_slice()
    }

    // Answers the offer at the index, the cheapest first.
    pub fn offer(&self, i: usize) -> Option<Offer>
        ensures { result ≡ slice_get (model_of self.now).list i }
    {
        self.offers().get(i).copied()
    }

    // Answers how many entries were accepted.
    pub fn accepted(&self) -> u16
        ensures { result ≡ (model_of self.now).count }
    {
        self.accepted
    }

    // Answers the time of the latest accepted call.
    pub fn latest(&self) -> u32
        ensures { result ≡ (model_of self.now).time }
    {
        self.latest
    }

    // Answers how many records the book was handed.
    pub fn capacity(&self) -> usize
        ensures { result ≡ space self.now }
    {
        self.list.capacity()
    }

    // Answers the total of the standing lots.
    pub fn supply(&self) -> u64
        ensures { result ≡ capped (supplied (model_of self.now).list) }
    {
        self.offers().iter().fold(
            0,
            |all: u64, offer| all.saturating_add(u64::from(offer.lots)),
        )
    }
}
