// A caller of settlement. That it may not forget a slip is shown by a must-fail edit.
use allotment::BuyerRow;
use settlement::bill;

// Bills a row, pays its slip in time, and answers what the slip was for.
pub(crate) fn billed(rows: &mut [BuyerRow], index: usize) -> u64 {
    let slip = bill(rows, index, 64_800);
    let payment = slip.payment();
    let _receipt = slip.pay(55_800);
    payment
}
