// What the product answers, figure by figure.
use super::figures::Figures;
use super::plan::Plan;
use allotment::{Allotted, BuyerRow, Sides, allot};
use book::{Book, Call, Cancellation, Change, Entry, Offer};
use sharing::{LargestRemainder, Proportional, Refusal, SharingRule, StrideDraw, TimeOrder};
use stages::{Buyer, Closed, Kind, Open, Terms, file};
use std::alloc::{AllocError, Global};

// A number of 16 bits; one that is above them counts as the largest.
pub(crate) fn narrow(number: u32) -> u16 {
    u16::try_from(number).unwrap_or(u16::MAX)
}

// Both types of a conversion below belong to other crates, so none of them can be a `From`.

// The terms in the product's type.
fn terms_of(terms: &reference::Terms) -> Terms {
    Terms {
        kind: terms.kind,
        method: terms.method,
        shortfall: terms.shortfall,
        unit: narrow(terms.unit),
        previous_close: terms.previous_close,
        bank_closing: terms.bank_closing,
    }
}

// The buyer in the product's type.
fn buyer_of(buyer: &reference::Buyer) -> Buyer {
    Buyer {
        account: buyer.account,
        lots: buyer.lots,
    }
}

// The buyers in the product's type.
fn buyers_of(heap: Global, buyers: &[reference::Buyer]) -> Result<Vec<Buyer>, AllocError> {
    buyers.iter().map(buyer_of).collect(heap)
}

// The call in the product's type.
fn call_of(call: reference::Call) -> Call {
    match call {
        reference::Call::Enter {
            time,
            member,
            account,
            price,
            lots,
        } => Call::Enter(Entry {
            time,
            member,
            account,
            price,
            lots,
        }),
        reference::Call::Change {
            time,
            member,
            number,
            price,
            lots,
        } => Call::Change(Change {
            time,
            member,
            number: narrow(number),
            price,
            lots,
        }),
        reference::Call::Cancel {
            time,
            member,
            number,
        } => Call::Cancel(Cancellation {
            time,
            member,
            number: narrow(number),
        }),
    }
}

// What is allotted: a closed tender and its book, to the buyers that are handed over.
#[derive(Drop)]
struct Closing<'a> {
    tender: Closed,
    book: Book<'a>,
    handed: Vec<Buyer>,
}

// What is allotted: 512 fills by number, and 8 rows.
fn show(
    allotted: Allotted,
    fills: &[u32],
    rows: &[BuyerRow],
    figures: &mut Figures,
) -> Result<(), AllocError> {
    figures.allotted(
        u64::from(allotted.due),
        allotted.price,
        allotted.receipts,
        allotted.fee,
    )?;
    figures.lots(fills)?;
    for row in rows {
        figures.row(row.lots, row.payment, row.billed)?;
    }
    Ok(())
}

// Allots under the sellers' rule, into places of the plan's sizes.
fn allot_under<S: SharingRule>(
    heap: Global,
    plan: &Plan,
    closing: Closing<'_>,
    sellers: &mut S,
    draw: StrideDraw,
    figures: &mut Figures,
) -> Result<(), AllocError> {
    let mut buyers = LargestRemainder::new(draw);
    let rules = Sides {
        sellers,
        buyers: &mut buyers,
    };
    let mut fills = vec![in heap; 0; plan.places.fills]?;
    let mut rows = vec![in heap; BuyerRow::default(); plan.places.rows]?;
    let Closing {
        tender,
        book,
        handed,
    } = closing;
    let answer = allot(
        tender,
        &book,
        handed.as_slice(),
        fills.as_mut_slice(),
        rows.as_mut_slice(),
        rules,
    );
    let Some(allotted) = figures.answer(answer)? else {
        return Ok(());
    };
    show(allotted, fills.as_slice(), rows.as_slice(), figures)
}

// Allots under the rule of the tender's kind, both sides by one draw.
fn allot_by_kind(
    heap: Global,
    plan: &Plan,
    closing: Closing<'_>,
    figures: &mut Figures,
) -> Result<(), AllocError> {
    let Ok(draw) = draw_of(plan) else {
        return Ok(());
    };
    match closing.tender.particulars().kind {
        Kind::General => {
            let mut rule = Proportional::new(draw);
            allot_under(heap, plan, closing, &mut rule, draw, figures)
        }
        Kind::Financing => allot_under(heap, plan, closing, &mut TimeOrder, draw, figures),
    }
}

// The steps from the opened book to the allotment.
fn run(heap: Global, plan: &Plan, tender: Open, figures: &mut Figures) -> Result<(), AllocError> {
    let handed = buyers_of(heap, plan.handed())?;
    let mut records = vec![in heap; Offer::default(); plan.places.records]?;
    let _place = figures.answer(Book::check(records.as_slice()))?;
    let mut book = Book::new(records.as_mut_slice());
    for call in plan.calls.iter() {
        let _accepted = figures.answer(book.apply(&tender, call_of(*call), handed.as_slice()))?;
    }
    for offer in book.offers() {
        figures.offer(
            u64::from(offer.number),
            offer.member,
            offer.account,
            offer.price,
            offer.lots,
        )?;
    }
    let Some(tender) = figures.answer(tender.close(plan.closing))? else {
        return Ok(());
    };
    let closing = Closing {
        tender,
        book,
        handed,
    };
    allot_by_kind(heap, plan, closing, figures)
}

// The draw of a plan.
fn draw_of(plan: &Plan) -> Result<StrideDraw, Refusal> {
    StrideDraw::new(narrow(plan.stride), narrow(plan.shift))
}

// The opened tender of a plan, where no step to it is refused.
fn open(heap: Global, plan: &Plan, figures: &mut Figures) -> Result<Option<Open>, AllocError> {
    let buyers = buyers_of(heap, plan.buyers.as_slice())?;
    let Some(filed) = figures.answer(file(&terms_of(&plan.terms), buyers.as_slice()))? else {
        return Ok(None);
    };
    let Some(_draw) = figures.answer(draw_of(plan))? else {
        return Ok(None);
    };
    figures.answer(filed.open(plan.base))
}

// The figures of a plan, up to the step that is refused.
pub(crate) fn figures(heap: Global, plan: &Plan) -> Result<Figures, AllocError> {
    let mut figures = Figures::new(heap);
    if let Some(tender) = open(heap, plan, &mut figures)? {
        run(heap, plan, tender, &mut figures)?;
    }
    Ok(figures)
}
