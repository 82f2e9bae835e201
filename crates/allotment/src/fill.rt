// Fills at a price.
ghost use Rattle.std.specs.Prelude.{◌≡◌, ◌≤◌, length};
ghost use Rattle.book.specs.Model.{model_of};
ghost use Rattle.allotment_theory.specs.Fills.{tied, filled, scattered};

use arrayvec::ArrayVec;
use book::Book;
use sharing::Claim;
use std::cmp::Ordering;

// How many fills there are, and how many standing offers at most.
pub(crate) const FILLS: usize = 512;

// Answers the offers at the price as claims, in their order.
pub(crate) fn tied(book: &Book, price: u32) -> ArrayVec<Claim, FILLS>
    requires { length (model_of book.now).list ≤ 512 }
    ensures { result.items ≡ tied price (model_of book.now).list }
{
    let mut claims = ArrayVec::new();
    for offer in book.offers() {
        if offer.price == price {
            claims.push(Claim {
                number: offer.number,
                lots: offer.lots,
            });
        }
    }
    claims
}

// Writes each offer's fill at its number: whole below the price, its share at the price, nothing above it. A number past the end
// is let go.
pub(crate) fn write_fills(book: &Book, price: u32, shares: &[u32], fills: &mut [u32])
    ensures { fills.new ≡ scattered (model_of book.now).list (filled price (model_of book.now).list shares.now) fills.old }
{
    let mut shares = shares.iter();
    for offer in book.offers() {
        let lots = match offer.price.cmp(&price) {
            Ordering::Less => offer.lots,
            Ordering::Equal => shares.next().copied().unwrap_or(0),
            Ordering::Greater => 0,
        };
        // By index: after `get_mut` a proof knows the length alone, and the loop's invariant was left open.
        let place = usize::from(offer.number);
        if place < fills.len() {
            fills[place] = lots;
        }
    }
}
