// The billing of buyer rows.
ghost use Rattle.std.specs.Prelude.{◌≡◌, ℕ};
ghost use Rattle.stages.specs.declared.kind.Kind.TheVariants.{Financing, General};
ghost use Rattle.book.specs.Offers.{capped};
ghost use Rattle.settlement.specs.Bills.{after_bill, bill_of, billable, NothingAgain, NothingToBill, OthersStay, owed, SlipsTotal, unbilled};
ghost use Rattle.settlement.specs.Allotments.{RowsOf};
ghost use Rattle.settlement.specs.Receipts.{slip_for};

use super::slip::Slip;
use allotment::BuyerRow;

// Answers whether there is something to bill: the row is not marked, and has lots and a payment.
fn is_billable(row: BuyerRow) -> bool
    ensures { result ≡ billable row }
{
    !row.billed && row.lots > 0 && row.payment > 0
}

// Answers what a row is still to be billed.
fn still_owed(row: BuyerRow) -> u64
    ensures { result ≡ owed row }
{
    if is_billable(row) { row.payment } else { 0 }
}

// Marks a row, if it is among the rows and there is something to bill, and answers what is billed. The mark is written by index:
// after `get_mut` a proof knows no row.
fn mark(rows: &mut [BuyerRow], index: usize) -> u64
    ensures answer { result ≡ bill_of rows.old index }
    ensures rows { rows.new ≡ after_bill rows.old index }
{
    let Some(row) = rows.get(index).copied() else {
        return 0;
    };
    if !is_billable(row) {
        return 0;
    }
    rows[index].billed = true;
    row.payment
}

// Bills the row at the index: gives a slip for its payment, and marks the row. Where there is nothing to bill, or no such row, the
// slip is for nothing and no row is altered.
pub fn bill(rows: &mut [BuyerRow], index: usize, bank_close: u32) -> Slip
    ensures slip { result ≡ slip_for (bill_of rows.old index) bank_close }
    ensures rows { rows.new ≡ after_bill rows.old index }
    ensures nothing { NothingToBill rows.old index → (result.payment ≡ 0) × (rows.new ≡ rows.old) }
    ensures others { OthersStay index rows.old rows.new }
    ensures again { NothingAgain index rows.new }
    ensures general { (receipts : ℕ) → RowsOf General receipts rows.old → result.payment ≡ 0 }
{
    let payment = mark(rows, index);
    Slip::new(payment, bank_close)
}

// Answers what is still to be billed, in cents, as far as 64 bits go.
pub fn unbilled_total(rows: &[BuyerRow]) -> u64
    ensures total { result ≡ capped (unbilled rows.now) }
    ensures slips { SlipsTotal rows.now (unbilled rows.now) }
    ensures financing { (receipts : ℕ) → RowsOf Financing receipts rows.now → (result ≡ capped receipts) × SlipsTotal rows.now receipts }
    ensures general { (receipts : ℕ) → RowsOf General receipts rows.now → result ≡ 0 }
{
    rows.iter()
        .fold(0, |all: u64, row| all.saturating_add(still_owed(*row)))
}
