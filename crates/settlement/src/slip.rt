// A slip for a payment, which has to be spent.
ghost use Rattle.std.specs.Prelude.{◌≡◌, ℕ, ◌<◌, ◌≤◌, true, false};
ghost use Rattle.settlement.specs.Receipts.{default_of, NoLess, receipt_of, slip_for};

use super::charge::{DAY_END, is_breach, late_charge};
use super::receipt::Receipt;

// What a firm owes, in cents, 0 in a slip for nothing, under a bank closing time. Only billing makes one. It has the mark `spent`
// since that is what its drop contract is stated on: a slip that is let go unspent is refused.
pub struct Slip {
    payment: u64,
    bank_close: u32,
    spent: bool,
}

// A slip may be let go only once it is spent: one pays it, or records the default.
impl Drop for Slip {
    fn drop(self)
        requires { self.spent ≡ true }
    {
        let Slip {
            payment: _,
            bank_close: _,
            spent: _,
        } = self;
    }
}

impl Slip {
    // Makes a slip that is not spent.
    pub(crate) fn new(payment: u64, bank_close: u32) -> Slip
        ensures { result ≡ slip_for payment bank_close }
    {
        Slip {
            payment,
            bank_close,
            spent: false,
        }
    }

    // Answers what is owed, in cents.
    pub fn payment(&self) -> u64
        ensures { result ≡ self.now.payment }
    {
        self.payment
    }

    // Answers what a payment at the time costs.
    fn receipt_at(&self, time: u32) -> Receipt
        ensures { result ≡ receipt_of self.now time }
    {
        if self.payment == 0 {
            return Receipt::default();
        }
        Receipt {
            charge: late_charge(time),
            breach: is_breach(time, self.bank_close),
        }
    }

    // Spends the slip by a payment at the time.
    pub fn pay(mut self, time: u32) -> Receipt
        ensures receipt { result ≡ receipt_of self time }
        ensures later { (later : ℕ) → time ≤ later → NoLess result (receipt_of self later) }
        ensures never { NoLess result (default_of self) }
    {
        self.spent = true;
        self.receipt_at(time)
    }

    // Spends the slip by recording that it is not paid.
    pub fn record_default(mut self) -> Receipt
        ensures receipt { result ≡ default_of self }
        ensures most { (time : ℕ) → NoLess (receipt_of self time) result }
        ensures breach { 0 < self.payment → result.breach ≡ true }
    {
        self.spent = true;
        if self.payment == 0 {
            return Receipt::default();
        }
        Receipt {
            charge: late_charge(DAY_END),
            breach: true,
        }
    }
}
