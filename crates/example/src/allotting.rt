// Runs of whole tenders by the library's one call, and what they allot.
use allotment::{Allotted, BuyerRow, Sides};
use book::{Call, Offer};
use sharing::StrideDraw;
use stages::{Buyer, Open, Terms, file};
use std::io;
use tender_run::{Outcome, Session, run_by_kind};

// Files a tender and opens it, if neither is refused.
fn opened(terms: &Terms, buyers: &[Buyer], base: u32) -> Option<Open> {
    let filed = file(terms, buyers).ok()?;
    filed.open(base).ok()
}

// Makes the draw that both rules use.
fn draw() -> Option<StrideDraw> {
    StrideDraw::new(3, 510).ok()
}

// Prints what each standing offer is filled.
fn show_fills(
    rt: &HostRuntime,
    offers: &[Offer],
    standing: usize,
    fills: &[u32],
) -> io::Result<()> {
    for offer in offers.iter().take(standing) {
        if let Some(fill) = fills.get(offer.number as usize) {
            println!(rt;
                "offer {}: {} of {} lots at {}",
                offer.number, fill, offer.lots, offer.price
            )?;
        }
    }
    Ok(())
}

// Prints what each buyer gets and pays.
fn show_rows(rt: &HostRuntime, rows: &[BuyerRow], buyers: usize) -> io::Result<()> {
    for (i, row) in rows.iter().take(buyers).enumerate() {
        let mark = if row.billed { ", billed" } else { "" };
        println!(rt; "buyer {i}: {} lots for {}{mark}", row.lots, row.payment)?;
    }
    Ok(())
}

// Prints what is due, the marginal price, the receipts and the fee.
fn show_allotted(rt: &HostRuntime, allotted: Allotted) -> io::Result<()> {
    match allotted.price {
        Some(price) => println!(rt; "due {} at {price}", allotted.due)?,
        None => println!(rt; "nothing due")?,
    }
    println!(rt; "receipts {}, fee {}", allotted.receipts, allotted.fee)
}

// Prints all that a run answers and writes.
fn show_outcome(
    rt: &HostRuntime,
    outcome: Outcome,
    offers: &[Offer],
    fills: &[u32],
    rows: &[BuyerRow],
    buyers: usize,
) -> io::Result<()> {
    println!(rt;
        "{} calls accepted, {} refused",
        outcome.accepted, outcome.refused
    )?;
    show_fills(rt, offers, outcome.standing, fills)?;
    show_rows(rt, rows, buyers)?;
    show_allotted(rt, outcome.allotted)
}

// Runs a tender from its opening to its allotment under the rules of its kind, and prints what comes of it.
pub(crate) fn show_run(
    rt: &HostRuntime,
    terms: &Terms,
    buyers: &[Buyer],
    base: u32,
    calls: &[Call],
    closing: u32,
) -> io::Result<()> {
    let Some(tender) = opened(terms, buyers, base) else {
        return println!(rt; "the tender is refused");
    };
    let Some(draw) = draw() else {
        return println!(rt; "the draw is refused");
    };
    let draws = Sides {
        sellers: draw,
        buyers: draw,
    };
    let session = Session {
        calls,
        buyers,
        closing,
    };
    let mut records = [Offer::default(); 512];
    let mut fills = [0; 512];
    let mut rows = [BuyerRow::default(); 8];
    match run_by_kind(tender, &mut records, &session, &mut fills, &mut rows, draws) {
        Ok(outcome) => show_outcome(rt, outcome, &records, &fills, &rows, buyers.len()),
        Err(refused) => println!(rt; "the run is refused: {}", refused.0.number()),
    }
}
