// The statement of a run: its log line, a line for each standing offer, and one for each buyer.
ghost use Rattle.std.specs.Prelude.{◌≡◌, ◌++◌, IfOk, string_bytes, OnOk, slice_index};
ghost use Rattle.lines.specs.Statement.{buyer_line, buyer_lines, offer_line, offer_lines, statement_of};

use super::log::line;
use super::member::Member;
use allotment::BuyerRow;
use book::Offer;
use replay::Report;
use stages::Buyer;
use std::alloc::{AllocError, Global};

// Answers what the offer of the number is filled.
fn fill_of(fills: &[u32], number: u16) -> u32
    ensures { result ≡ slice_index fills.now number }
{
    fills.get(usize::from(number)).copied().unwrap_or(0)
}

// Writes the line of an offer.
fn offer_line(heap: Global, offer: Offer, filled: u32) -> Result<String, AllocError>
    ensures { IfOk result (λ s. string_bytes s ≡ offer_line offer filled) }
{
    let Offer {
        number,
        member,
        account,
        price,
        lots,
    } = offer;
    let member = Member(member);
    format!(in heap;
        "offer {number} {member} account {account} price {price} lots {lots} filled {filled}\n"
    )
}

// Adds a line for each offer.
fn push_offers(
    text: &mut String,
    heap: Global,
    offers: &[Offer],
    fills: &[u32],
) -> Result<(), AllocError>
    ensures { OnOk result (string_bytes text.new ≡ string_bytes text.old ++ offer_lines fills.now offers.now) }
{
    for offer in offers {
        let line = offer_line(heap, *offer, fill_of(fills, offer.number))?;
        text.push_str(line.as_str())?;
    }
    Ok(())
}

// Writes the line of a buyer.
fn buyer_line(heap: Global, buyer: Buyer, row: BuyerRow) -> Result<String, AllocError>
    ensures { IfOk result (λ s. string_bytes s ≡ buyer_line buyer row) }
{
    let Buyer { account, lots } = buyer;
    let gets = row.lots;
    let payment = row.payment;
    let mark = if row.billed { " billed" } else { "" };
    format!(in heap; "buyer {account} lots {lots} gets {gets} pays {payment}{mark}\n")
}

// Adds a line for each buyer that there is a row for.
fn push_buyers(
    text: &mut String,
    heap: Global,
    buyers: &[Buyer],
    rows: &[BuyerRow],
) -> Result<(), AllocError>
    ensures { OnOk result (string_bytes text.new ≡ string_bytes text.old ++ buyer_lines buyers.now rows.now) }
{
    for (buyer, row) in buyers.iter().zip(rows) {
        let line = buyer_line(heap, *buyer, *row)?;
        text.push_str(line.as_str())?;
    }
    Ok(())
}

// Writes the statement of the report.
pub fn statement(heap: Global, report: &Report) -> Result<String, AllocError>
    ensures { IfOk result (λ s. string_bytes s ≡ statement_of report.now) }
{
    let mut text = line(heap, report)?;
    push_offers(&mut text, heap, report.offers.as_slice(), &report.fills)?;
    push_buyers(&mut text, heap, report.buyers.as_slice(), &report.rows)?;
    Ok(text)
}
