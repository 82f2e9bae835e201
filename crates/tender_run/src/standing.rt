// The standing offers, copied from a book and written to records.
ghost use Rattle.std.specs.Prelude.{◌≡◌, ◌≤◌, length, take};
ghost use Rattle.book.specs.Model.{model_of};

use book::{Book, Offer};

// Copies the standing offers in order, and answers how many they are.
pub(crate) fn copy_standing(book: &Book, offers: &mut [Offer]) -> usize
    requires { length (model_of book.now).list ≤ length offers.old }
    ensures count { result ≡ length (model_of book.now).list }
    ensures front { take (length (model_of book.now).list) offers.new ≡ (model_of book.now).list }
{
    let standing = book.offers();
    offers[..standing.len()].copy_from_slice(standing);
    standing.len()
}

// Writes the first `n` offers to the records that a book was lent. They stand there already: it is written since a proof does
// not follow what a book makes of the records lent to it. Tried: a loan through two structs does not come back to the lender.
pub(crate) fn write_back(offers: &[Offer], n: usize, records: &mut [Offer])
    requires there { n ≤ length offers.now }
    requires room { n ≤ length records.old }
    ensures { take n records.new ≡ take n offers.now }
{
    records[..n].copy_from_slice(&offers[..n]);
}
