// Rows that can and cannot be billed, and what is charged for paying them.
use super::caller::billed;
use allotment::BuyerRow;
use settlement::{Receipt, bill, is_breach, late_charge, unbilled_total};

fn row(lots: u32, payment: u64, billed: bool) -> BuyerRow {
    BuyerRow {
        lots,
        payment,
        billed,
    }
}

// Bills a row of 900 cents and pays its slip at the time.
fn paid(time: u32, bank_close: u32) -> Receipt {
    let mut rows = [row(3, 900, false)];
    bill(&mut rows, 0, bank_close).pay(time)
}

#[test]
fn a_row_is_billed_once(rt: HostRuntime) {
    let mut rows = [row(3, 900, false), row(2, 600, false)];
    assert_eq!(rt; unbilled_total(&rows), 1_500);
    assert_eq!(rt; billed(&mut rows, 1), 600);
    assert!(rt; rows[1].billed);
    assert!(rt; !rows[0].billed);
    assert_eq!(rt; billed(&mut rows, 1), 0);
    assert_eq!(rt; unbilled_total(&rows), 900);
}

#[test]
fn nothing_to_bill(rt: HostRuntime) {
    let mut rows = [row(3, 900, true), row(0, 600, false), row(2, 0, false)];
    assert_eq!(rt; billed(&mut rows, 0), 0);
    assert_eq!(rt; billed(&mut rows, 1), 0);
    assert_eq!(rt; billed(&mut rows, 2), 0);
    assert_eq!(rt; billed(&mut rows, 3), 0);
    assert!(rt; rows[0].billed);
    assert!(rt; !rows[1].billed);
    assert!(rt; !rows[2].billed);
}

#[test]
fn charges(rt: HostRuntime) {
    assert_eq!(rt; late_charge(0), 0);
    assert_eq!(rt; late_charge(55_800), 0);
    assert_eq!(rt; late_charge(55_801), 3_000_000);
    assert_eq!(rt; late_charge(59_400), 3_000_000);
    assert_eq!(rt; late_charge(59_401), 4_000_000);
    assert_eq!(rt; late_charge(63_000), 4_000_000);
    assert_eq!(rt; late_charge(63_001), 5_000_000);
    assert_eq!(rt; late_charge(86_399), 11_000_000);
    assert_eq!(rt; late_charge(u32::MAX), 11_000_000);
}

#[test]
fn the_range_of_bank_closing(rt: HostRuntime) {
    assert!(rt; !is_breach(55_799, 0));
    assert!(rt; !paid(55_800, 0).breach);
    assert!(rt; paid(55_801, 0).breach);
    assert!(rt; !is_breach(64_800, 64_800));
    assert!(rt; is_breach(64_801, 64_800));
    assert!(rt; !is_breach(86_399, 86_399));
    assert!(rt; !paid(u32::MAX, u32::MAX).breach);
}

#[test]
fn a_late_payment(rt: HostRuntime) {
    let receipt = paid(59_401, 64_800);
    assert_eq!(rt; receipt.charge, 4_000_000);
    assert!(rt; !receipt.breach);
    let receipt = paid(64_801, 64_800);
    assert_eq!(rt; receipt.charge, 5_000_000);
    assert!(rt; receipt.breach);
}

#[test]
fn a_default(rt: HostRuntime) {
    let mut rows = [row(3, 900, false)];
    let receipt = bill(&mut rows, 0, 86_399).record_default();
    assert_eq!(rt; receipt.charge, 11_000_000);
    assert!(rt; receipt.breach);
    let receipt = bill(&mut rows, 0, 86_399).record_default();
    assert_eq!(rt; receipt.charge, 0);
    assert!(rt; !receipt.breach);
}
