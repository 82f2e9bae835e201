// What the reference answers, figure by figure.
use super::figures::Figures;
use super::plan::Plan;
use reference::{
    Allotment, Offer, Refusal, Row, Trading, allot, judge_allotment, judge_closing, judge_filing,
    judge_opening, judge_stride, stride_ranks,
};
use std::alloc::{AllocError, Global};

// The number of each call, and then the standing offers in their order.
fn trade(heap: Global, plan: &Plan, figures: &mut Figures) -> Result<Vec<Offer>, AllocError> {
    let mut trading = Trading::new(
        heap,
        plan.terms,
        plan.buyers.as_slice(),
        plan.base,
        plan.places.records,
    );
    for call in plan.calls.iter() {
        let _accepted = figures.answer(trading.call(*call, plan.handed())?)?;
    }
    let offers = trading.standing(heap)?;
    for offer in offers.iter() {
        figures.offer(
            offer.number as u64,
            offer.member,
            offer.account,
            offer.price,
            offer.lots,
        )?;
    }
    Ok(offers)
}

// What the offer of the number is filled; 0 where none stands.
fn fill(offers: &[Offer], fills: &[u32], number: usize) -> u32 {
    offers
        .iter()
        .zip(fills)
        .find(|(offer, _)| offer.number == number)
        .map_or(0, |(_, fill)| *fill)
}

// What is allotted: 512 fills by number, and 8 rows, of which those behind the buyers' are empty.
fn show(offers: &[Offer], allotment: Allotment, figures: &mut Figures) -> Result<(), AllocError> {
    figures.allotted(
        allotment.due,
        allotment.price,
        allotment.receipts,
        allotment.fee,
    )?;
    for number in 0..512 {
        figures.lots(&[fill(offers, allotment.fills.as_slice(), number)])?;
    }
    let Allotment { mut rows, .. } = allotment;
    rows.resize(8, Row::default())?;
    for row in rows.iter() {
        figures.row(row.lots, row.payment, row.billed)?;
    }
    Ok(())
}

// The steps from the opened book to the allotment.
fn run(heap: Global, plan: &Plan, figures: &mut Figures) -> Result<(), AllocError> {
    let whole = plan.places.records == 512;
    let _place = figures.answer(whole.then_some(()).ok_or(Refusal::Place))?;
    let offers = trade(heap, plan, figures)?;
    let Some(()) = figures.answer(judge_closing(plan.terms.kind, plan.closing))? else {
        return Ok(());
    };
    let places = judge_allotment(plan.buyers.as_slice(), plan.handed(), plan.places);
    let Some(()) = figures.answer(places)? else {
        return Ok(());
    };
    let ranks = stride_ranks(heap, plan.stride, plan.shift)?;
    let allotment = allot(
        heap,
        &plan.terms,
        ranks.as_slice(),
        offers.as_slice(),
        plan.handed(),
    )?;
    show(offers.as_slice(), allotment, figures)
}

// Whether the tender of a plan opens.
fn opens(plan: &Plan, figures: &mut Figures) -> Result<bool, AllocError> {
    let filing = judge_filing(&plan.terms, plan.buyers.as_slice());
    Ok(
        figures.answer(filing)?.is_some()
            && figures
                .answer(judge_stride(plan.stride, plan.shift))?
                .is_some()
            && figures
                .answer(judge_opening(&plan.terms, plan.base))?
                .is_some(),
    )
}

// The figures of a plan, up to the step that is refused.
pub(crate) fn figures(heap: Global, plan: &Plan) -> Result<Figures, AllocError> {
    let mut figures = Figures::new(heap);
    if opens(plan, &mut figures)? {
        run(heap, plan, &mut figures)?;
    }
    Ok(figures)
}
