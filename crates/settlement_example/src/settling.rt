// The settlement of a tender: a bill for each firm, and what becomes of it.
use allotment::BuyerRow;
use settlement::{Receipt, bill, unbilled_total};
use std::io;

// When each firm pays, in the order of the rows: an hour and a second late, after the bank closing time, and never.
const PAID_AT: [Option<u32>; 3] = [Some(59_401), Some(64_801), None];

// Prints what a firm pays and when, and what it is charged.
fn show_receipt(
    rt: &HostRuntime,
    firm: usize,
    payment: u64,
    time: Option<u32>,
    receipt: Receipt,
) -> io::Result<()> {
    match time {
        Some(time) => print!(rt; "firm {firm} pays {payment} at {time}")?,
        None => print!(rt; "firm {firm} defaults on {payment}")?,
    }
    let breach = if receipt.breach {
        "a breach"
    } else {
        "no breach"
    };
    println!(rt; ": charge {}, {breach}", receipt.charge)
}

// Bills a firm's row, and spends the slip: the firm pays at the time, or defaults.
fn settle(
    rt: &HostRuntime,
    rows: &mut [BuyerRow],
    firm: usize,
    bank_close: u32,
    time: Option<u32>,
) -> io::Result<()> {
    let slip = bill(rows, firm, bank_close);
    let payment = slip.payment();
    let receipt = match time {
        Some(time) => slip.pay(time),
        None => slip.record_default(),
    };
    show_receipt(rt, firm, payment, time, receipt)
}

// Bills each firm's row, and then the first a second time, of which nothing is left to pay.
pub(crate) fn show_settlement(
    rt: &HostRuntime,
    rows: &mut [BuyerRow],
    bank_close: u32,
) -> io::Result<()> {
    println!(rt; "to be billed: {}", unbilled_total(rows))?;
    for (firm, time) in PAID_AT.iter().enumerate() {
        settle(rt, rows, firm, bank_close, *time)?;
    }
    println!(rt; "to be billed: {}", unbilled_total(rows))?;
    println!(rt; "firm 0 is billed a second time")?;
    settle(rt, rows, 0, bank_close, Some(64_801))
}
