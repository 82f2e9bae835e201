// Settlement, through the library: what billing gives, and what paying costs.
use super::bench::Bench;
use super::dice::Dice;
use allotment::BuyerRow;
use reference::Row;
use settlement::bill;

// A row that is billed, the index that is handed over, and when it is paid, if ever.
#[derive(Clone, Copy, PartialEq, Eq, Debug)]
struct Payment {
    row: Row,
    index: usize,
    bank_closing: u32,
    paid_at: Option<u32>,
}

// What comes of it: the slip's payment, charge and breach, and which of three rows are marked.
type Settled = (u64, u64, bool, [bool; 3]);

// The product's three rows, of which the one at the index is billed.
// Both types of a row belong to other crates, so the conversion can be no `From`.
fn product(asked: &Payment) -> Settled {
    let row = BuyerRow {
        lots: asked.row.lots,
        payment: asked.row.payment,
        billed: asked.row.billed,
    };
    let mut rows = [row; 3];
    let slip = bill(&mut rows, asked.index, asked.bank_closing);
    let payment = slip.payment();
    let receipt = match asked.paid_at {
        Some(time) => slip.pay(time),
        None => slip.record_default(),
    };
    let marks = rows.map(|row| row.billed);
    (payment, receipt.charge, receipt.breach, marks)
}

// The reference's.
fn second(asked: &Payment) -> Settled {
    let mut rows = [asked.row; 3];
    let payment = reference::bill(&mut rows, asked.index);
    let receipt = reference::settle(payment, asked.bank_closing, asked.paid_at);
    let marks = rows.map(|row| row.billed);
    (payment, receipt.charge, receipt.breach, marks)
}

// Compares one payment or default.
fn compare_settlement(bench: &mut Bench<'_>, asked: &Payment) -> anyhow::Result<()> {
    let agrees = product(asked) == second(asked);
    bench.score.settlements.note(agrees);
    if !agrees {
        let rt = bench.rt;
        println!(rt;
            "settlements differ: row {} {} {}, index {}, bank closing {}, paid at {:?}",
            asked.row.lots,
            asked.row.payment,
            asked.row.billed,
            asked.index,
            asked.bank_closing,
            asked.paid_at
        )?;
    }
    Ok(())
}

// A time about the ends of an hour, or any.
fn time(dice: &mut Dice) -> u32 {
    match dice.below(4) {
        0 => dice.below(100_000),
        1 => 86_398 + dice.below(4),
        _ => 55_799 + 3_600 * dice.below(9) + dice.below(3),
    }
}

// A generated payment, or a default.
fn generated(dice: &mut Dice) -> Payment {
    let paid_at = if dice.once_in(6) {
        None
    } else {
        Some(time(dice))
    };
    Payment {
        row: Row {
            lots: dice.below(4),
            payment: u64::from(dice.below(4)) * 1_000_000,
            billed: dice.once_in(4),
        },
        index: dice.below(4) as usize,
        bank_closing: time(dice),
        paid_at,
    }
}

// Compares generated payments and defaults.
pub(crate) fn compare_settlements(
    bench: &mut Bench<'_>,
    dice: &mut Dice,
    count: u32,
) -> anyhow::Result<()> {
    for _ in 0..count {
        compare_settlement(bench, &generated(dice))?;
    }
    Ok(())
}
