// Tenders step by step, through the library: every refusal's number, and every figure.
use super::bench::Bench;
use super::encode::encode;
use super::figures::Figures;
use super::files::compare_file;
use super::plan::Plan;
use super::{product, second};

// Where the first figure of a call stands, after those of filing, draw, opening and place.
const CALLS: usize = 4;

// Compares the figures of a plan, step by step, and answers them.
pub(crate) fn compare_steps(bench: &mut Bench<'_>, plan: &Plan) -> anyhow::Result<Figures> {
    let heap = bench.heap();
    let product = product::figures(heap, plan)?;
    let reference = second::figures(heap, plan)?;
    let agrees = product == reference;
    bench.score.runs.note(agrees);
    let count = product.as_slice().len() as u64;
    bench.score.figures = bench.score.figures.saturating_add(count);
    if !agrees {
        let file = encode(heap, plan)?;
        let line = compare_file(bench, file.as_slice())?;
        let rt = bench.rt;
        print!(rt; "steps differ in the tender of\n{line}")?;
        println!(rt; "the product:{product}")?;
        println!(rt; "the reference:{reference}")?;
    }
    let steps = plan.calls.len().saturating_add(CALLS);
    for figure in product.as_slice().iter().take(steps) {
        bench.score.meet(*figure);
    }
    Ok(product)
}

// Notes whether the figure is the number that is known beforehand.
fn note_number(bench: &mut Bench<'_>, found: Option<u64>, number: u64) -> anyhow::Result<()> {
    let agrees = found == Some(number);
    bench.score.expected.note(agrees);
    if !agrees {
        let rt = bench.rt;
        println!(rt; "expected {number}, found {found:?}")?;
    }
    Ok(())
}

// Compares a plan whose last call has a number that is known beforehand.
pub(crate) fn expect_call(bench: &mut Bench<'_>, plan: &Plan, number: u64) -> anyhow::Result<()> {
    let figures = compare_steps(bench, plan)?;
    let last = plan.calls.len().saturating_add(CALLS).saturating_sub(1);
    let found = figures.as_slice().get(last).copied();
    note_number(bench, found, number)
}

// Compares a plan that ends in a refusal that is known beforehand.
pub(crate) fn expect_refusal(
    bench: &mut Bench<'_>,
    plan: &Plan,
    number: u64,
) -> anyhow::Result<()> {
    let figures = compare_steps(bench, plan)?;
    let found = figures.as_slice().last().copied();
    if found == Some(number) {
        bench.score.meet(number);
    }
    note_number(bench, found, number)
}
