// What sellers receive, and what buyers pay.
ghost use Rattle.std.specs.Prelude.{◌≡◌, ◌*◌, ◌≤◌, length, take, drop, sum, slice_index};
ghost use Rattle.book.specs.Model.{model_of};
ghost use Rattle.book.specs.Offers.{capped};
ghost use Rattle.allotment_theory.specs.Receipts.{paid_at, part as part_of, receipts_of};
ghost use Rattle.allotment.specs.Rows.{billed_of, rows_of};

use book::{Book, Offer};
use stages::{Kind, Method, Particulars};

// How many buyer rows there are.
pub(crate) const ROWS: usize = 8;

// What a buyer gets and pays, and whether it is billed. That of no buyer gets nothing.
#[derive(Clone, Copy, PartialEq, Eq, Debug, Default)]
pub struct BuyerRow {
    pub lots: u32,
    // in cents
    pub payment: u64,
    pub billed: bool,
}

// Answers the price that an offer is paid.
fn price_paid(offer: Offer, method: Method, price: u32) -> u32
    ensures { result ≡ paid_at method price offer }
{
    match method {
        Method::OnePrice => price,
        Method::AsOffered => offer.price,
    }
}

// Answers what an offer's fill comes to under the particulars, at the marginal price.
fn worth(offer: Offer, fills: &[u32], particulars: Particulars, price: u32) -> u64
    ensures { result ≡ capped (slice_index fills.now offer.number * particulars.unit * paid_at particulars.method price offer) }
{
    let lots = fills.get(usize::from(offer.number)).copied().unwrap_or(0);
    let each = price_paid(offer, particulars.method, price);
    (u64::from(lots) * u64::from(particulars.unit)).saturating_mul(u64::from(each))
}

// Answers what the fills come to. 64 bits hold it of a sound book.
pub(crate) fn receipts(book: &Book, fills: &[u32], particulars: Particulars, price: u32) -> u64
    ensures { result ≡ capped (receipts_of particulars.unit (paid_at particulars.method price) (model_of book.now).list fills.now) }
{
    book.offers().iter().fold(
        0,
        |all: u64, offer| all.saturating_add(worth(*offer, fills, particulars, price)),
    )
}

// Answers the part of the receipts that falls to the first lots of those due, by quotient and remainder, so that 64 bits do.
fn part(receipts: u64, due: u32, lots: u32) -> u64
    ensures { result ≡ capped (part_of receipts due lots) }
{
    if due == 0 {
        return 0;
    }
    let due = u64::from(due);
    let lots = u64::from(lots);
    (receipts / due)
        .saturating_mul(lots)
        .saturating_add(receipts % due * lots / due)
}

// Answers whether a buyer of a tender of the kind is billed with the allotment.
pub(crate) fn is_billed(kind: Kind) -> bool
    ensures { result ≡ billed_of kind }
{
    match kind {
        Kind::General => true,
        Kind::Financing => false,
    }
}

// Writes the row of each buyer. By index: after a zip of `iter_mut` a proof knows nothing of the rows.
pub(crate) fn write_rows(receipts: u64, due: u32, billed: bool, lots: &[u32], rows: &mut [BuyerRow])
    requires { length lots.now ≤ length rows.old }
    ensures front { sum lots.now ≤ due → take (length lots.now) rows.new ≡ rows_of receipts due billed lots.now }
    ensures back { drop (length lots.now) rows.new ≡ drop (length lots.now) rows.old }
{
    let mut before: u32 = 0;
    let mut paid: u64 = 0;
    for (i, share) in lots.iter().enumerate() {
        before = before.saturating_add(*share);
        let next = part(receipts, due, before);
        rows[i] = BuyerRow {
            lots: *share,
            payment: next.saturating_sub(paid),
            billed,
        };
        paid = next;
    }
}
