// Bills, and what is paid late.
ghost use Rattle.std.specs.Prelude.{◌≡◌, ◌≤◌, length};

use super::allotting::Row;

// What a payment costs beside it, in cents, and whether it is a breach.
#[derive(Clone, Copy, PartialEq, Eq, Debug, Default)]
pub struct Receipt {
    pub charge: u64,
    pub breach: bool,
}

// What paying at the time costs, hour by hour.
fn charge(time: u32) -> u64
    ensures { result ≤ 11000000 }
{
    if time <= 55_800 {
        return 0;
    }
    let mut charge = 3_000_000u64;
    for hours in 1..9u32 {
        if time > 55_800 + hours * 3_600 {
            charge = 3_000_000 + u64::from(hours) * 1_000_000;
        }
    }
    charge
}

// The receipt for a payment at the time, or for a default.
pub fn settle(payment: u64, bank_closing: u32, paid_at: Option<u32>) -> Receipt
    ensures { result.charge ≤ 11000000 }
{
    if payment == 0 {
        return Receipt::default();
    }
    match paid_at {
        None => Receipt {
            charge: charge(86_399),
            breach: true,
        },
        Some(time) => {
            let time = time.min(86_399);
            Receipt {
                charge: charge(time),
                breach: time > bank_closing.clamp(55_800, 86_399),
            }
        }
    }
}

// Bills the row and marks it, and answers what is to be paid; 0 where there is nothing to bill.
pub fn bill(rows: &mut [Row], index: usize) -> u64
    ensures { length rows.old ≤ index → result ≡ 0 }
{
    let Some(row) = rows.get_mut(index) else {
        return 0;
    };
    if row.billed || row.lots == 0 || row.payment == 0 {
        return 0;
    }
    row.billed = true;
    row.payment
}
