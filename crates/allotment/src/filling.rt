// Fills by a sharing rule.
ghost use Rattle.std.specs.Prelude.{◌≡◌, ◌≤◌, length};
ghost use Rattle.sharing.specs.Kept.{Kept};
ghost use Rattle.book.specs.Model.{model_of};
ghost use Rattle.allotment_theory.specs.Fills.{fills_of, row_of};
ghost use Rattle.allotment_theory.specs.Offered.{Standing, marginal_of};

use super::fill::{FILLS, tied, write_fills};
use super::price::{lots_below, marginal_price};
use book::Book;
use sharing::SharingRule;

// Fills the offers up to what is due, by the rule for those at the marginal price, and answers that price.
pub(crate) fn fill_offers<S: SharingRule>(
    rule: &mut S,
    book: &Book,
    due: u32,
    fills: &mut [u32],
) -> Option<u32>
    requires { length (model_of book.now).list ≤ 512 }
    ensures kept { Kept S.SharingRule.sound S.SharingRule.shares_of rule.old rule.new }
    ensures priced { result ≡ marginal_of due (model_of book.now).list }
    ensures written { Standing (model_of book.now).list → length fills.old ≡ 512 → S.SharingRule.sound rule.old → fills.new ≡ row_of (model_of book.now).list (fills_of (S.SharingRule.shares_of rule.old) due (model_of book.now).list) }
{
    fills.fill(0);
    let price = marginal_price(book, due)?;
    let claims = tied(book, price);
    let remains = u64::from(due).saturating_sub(lots_below(book, price));
    let mut shares = [0; FILLS];
    let shares = &mut shares[..claims.len()];
    let _ = rule.share(&claims, remains as u32, shares);
    write_fills(book, price, shares, fills);
    Some(price)
}
