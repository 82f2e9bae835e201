// The allotment of a closed tender.
ghost use Rattle.std.specs.Prelude.{◌≡◌, ◌≤◌, true, length, IfOk, IfErr};
ghost use Rattle.stages.specs.Buyers.{as_filed};
ghost use Rattle.stages.specs.Register.{code_of, step_code_of};
ghost use Rattle.book.specs.Model.{model_of, space};
ghost use Rattle.book.specs.Soundness.{Sound};
ghost use Rattle.allotment.specs.Judgement.{allot_code};
ghost use Rattle.allotment.specs.Promise.{Asked, Computed, Promise};
ghost use Rattle.allotment.specs.Rows.{claims_of};
ghost use Rattle.allotment.specs.Sides.{BothKept};

use super::buyer_claims::as_claims;
use super::fill::FILLS;
use super::filling::fill_offers;
use super::pay::{BuyerRow, ROWS, is_billed, receipts, write_rows};
use super::price::due;
use super::sides::Sides;
use book::Book;
use sharing::SharingRule;
use stages::{Buyer, Closed, Particulars, Refusal};

// What an allotment answers beside the fills and the rows.
#[derive(Clone, Copy, PartialEq, Eq, Debug, Default)]
pub struct Allotted {
    // in lots
    pub due: u32,
    // the marginal price, in cents per share; none where nothing is due
    pub price: Option<u32>,
    // what the sellers receive together, in cents
    pub receipts: u64,
    // in cents
    pub fee: u64,
}

// Refuses places of the wrong size, and buyers that are not those filed.
pub fn check_places(
    particulars: Particulars,
    records: usize,
    buyers: &[Buyer],
    fills: usize,
    rows: usize,
) -> Result<(), Refusal>
    ensures { code_of result ≡ allot_code particulars records fills rows buyers.now }
{
    if records != FILLS || fills != FILLS || rows != ROWS {
        return Err(Refusal::Place);
    }
    if !particulars.as_filed(buyers) {
        return Err(Refusal::OtherBuyers);
    }
    Ok(())
}

// Computes the allotment of the standing offers.
fn compute<S: SharingRule, B: SharingRule>(
    particulars: Particulars,
    book: &Book,
    buyers: &[Buyer],
    fills: &mut [u32],
    rows: &mut [BuyerRow],
    rules: Sides<&mut S, &mut B>,
) -> Allotted
    requires few { length (model_of book.now).list ≤ 512 }
    requires short { length buyers.now ≤ 8 }
    requires long { length buyers.now ≤ length rows.old }
    ensures kept { BothKept S.SharingRule.sound S.SharingRule.shares_of B.SharingRule.sound B.SharingRule.shares_of rules.entry.sellers.now rules.exit.0.now rules.entry.buyers.now rules.exit.1.0.now }
    ensures computed { S.SharingRule.sound rules.entry.sellers.now → B.SharingRule.sound rules.entry.buyers.now → Computed (S.SharingRule.shares_of rules.entry.sellers.now) (B.SharingRule.shares_of rules.entry.buyers.now) particulars (model_of book.now).list (claims_of buyers.now) (length fills.old) (length rows.old) result fills.new rows.new }
{
    let Sides {
        sellers,
        buyers: shared_among,
    } = rules;
    let due = due(book, particulars);
    let mut lots = [0; ROWS];
    let lots = &mut lots[..buyers.len()];
    let _ = shared_among.share(&as_claims(buyers), due, lots);
    let price = fill_offers(sellers, book, due, fills);
    let receipts = receipts(book, fills, particulars, price.unwrap_or(0));
    rows.fill(BuyerRow::default());
    write_rows(receipts, due, is_billed(particulars.kind), lots, rows);
    Allotted {
        due,
        price,
        receipts,
        fee: receipts / 2_000,
    }
}

// Allots of the standing offers to the buyers, once places and buyers were asked about. On places or buyers that `allot`
// refuses it is safe and promises nothing.
pub fn allot_standing<S: SharingRule, B: SharingRule>(
    particulars: Particulars,
    book: &Book,
    buyers: &[Buyer],
    fills: &mut [u32],
    rows: &mut [BuyerRow],
    rules: Sides<&mut S, &mut B>,
) -> Allotted
    ensures kept { BothKept S.SharingRule.sound S.SharingRule.shares_of B.SharingRule.sound B.SharingRule.shares_of rules.entry.sellers.now rules.exit.0.now rules.entry.buyers.now rules.exit.1.0.now }
    ensures promise { Asked particulars (length fills.old) (length rows.old) buyers.now → Sound (model_of book.now) → S.SharingRule.sound rules.entry.sellers.now → B.SharingRule.sound rules.entry.buyers.now → Promise (S.SharingRule.shares_of rules.entry.sellers.now) (B.SharingRule.shares_of rules.entry.buyers.now) particulars (model_of book.now).list buyers.now result fills.new rows.new }
{
    if book.len() > FILLS || buyers.len() > ROWS || buyers.len() > rows.len() {
        return Allotted::default();
    }
    compute(particulars, book, buyers, fills, rows, rules)
}

// Allots of the book to the buyers, and uses up the tender: fills by offer number, and a row for each buyer. A refusal leaves
// fills and rows as they were, and hands the tender back. Fills and rows stay two parameters: over a struct of two loans each
// contract would also say that both are still the same loans.
pub fn allot<S: SharingRule, B: SharingRule>(
    tender: Closed,
    book: &Book,
    buyers: &[Buyer],
    fills: &mut [u32],
    rows: &mut [BuyerRow],
    rules: Sides<&mut S, &mut B>,
) -> Result<Allotted, (Refusal, Closed)>
    ensures code { step_code_of result ≡ allot_code tender.particulars (space book.now) (length fills.old) (length rows.old) buyers.now }
    ensures unchanged { IfErr result (λ e. (e.1 ≡ tender) × (fills.new ≡ fills.old) × (rows.new ≡ rows.old)) }
    ensures kept { BothKept S.SharingRule.sound S.SharingRule.shares_of B.SharingRule.sound B.SharingRule.shares_of rules.entry.sellers.now rules.exit.0.now rules.entry.buyers.now rules.exit.1.0.now }
    ensures promise { IfOk result (λ a. Sound (model_of book.now) → S.SharingRule.sound rules.entry.sellers.now → B.SharingRule.sound rules.entry.buyers.now → Promise (S.SharingRule.shares_of rules.entry.sellers.now) (B.SharingRule.shares_of rules.entry.buyers.now) tender.particulars (model_of book.now).list buyers.now a fills.new rows.new) }
{
    let particulars = tender.particulars();
    match check_places(
        particulars,
        book.capacity(),
        buyers,
        fills.len(),
        rows.len(),
    ) {
        Err(refusal) => Err((refusal, tender)),
        Ok(()) => Ok(allot_standing(particulars, book, buyers, fills, rows, rules)),
    }
}
