// What is due, and at which price it is reached.
ghost use Rattle.std.specs.Prelude.{◌≡◌};
ghost use Rattle.book.specs.Model.{model_of};
ghost use Rattle.book.specs.Offers.{capped, supplied};
ghost use Rattle.allotment_theory.specs.Offered.{below, due_of, marginal_of};

use book::Book;
use stages::{Particulars, Shortfall};

// Answers what is due: the demand if the supply reaches it, otherwise what the shortfall says.
pub(crate) fn due(book: &Book, particulars: Particulars) -> u32
    ensures { result ≡ due_of particulars.demand particulars.shortfall (supplied (model_of book.now).list) }
{
    let supply = book.supply();
    if u64::from(particulars.demand) <= supply {
        return particulars.demand;
    }
    match particulars.shortfall {
        Shortfall::Take => supply as u32,
        Shortfall::Void => 0,
    }
}

// Answers the price at which the standing offers, the cheapest first, have come to what is due; none where nothing is due.
pub(crate) fn marginal_price(book: &Book, due: u32) -> Option<u32>
    ensures { result ≡ marginal_of due (model_of book.now).list }
{
    if due == 0 {
        return None;
    }
    let mut left = due;
    for offer in book.offers() {
        if left <= offer.lots {
            return Some(offer.price);
        }
        left -= offer.lots;
    }
    None
}

// Answers the lots that stand below the price.
pub(crate) fn lots_below(book: &Book, price: u32) -> u64
    ensures { result ≡ capped (below price (model_of book.now).list) }
{
    book.offers()
        .iter()
        .filter(|offer| offer.price < price)
        .fold(
            0,
            |all: u64, offer| all.saturating_add(u64::from(offer.lots)),
        )
}
