// What a time of payment costs, and whether it is a breach.
ghost use Rattle.std.specs.Prelude.{◌≡◌};
ghost use Rattle.settlement.specs.Charges.{breach_of, charge_of, Charged};
ghost use Rattle.settlement.specs.Example.{WorkedExample};

// The last second at which a payment is free, and the earliest bank closing time.
const FREE_UNTIL: u32 = 55_800;

// The last second of the day.
pub(crate) const DAY_END: u32 = 86_399;

// How long an hour is, in seconds.
const HOUR: u32 = 3_600;

// Answers what a payment at the time costs, in cents: nothing by 55,800, and later 3,000,000, with 1,000,000 more for each further
// hour begun.
pub fn late_charge(time: u32) -> u64
    ensures charge { result ≡ charge_of time }
    ensures hours { Charged time result }
    ensures example { WorkedExample }
{
    let counted = time.min(DAY_END);
    if counted <= FREE_UNTIL {
        return 0;
    }
    let late = counted - FREE_UNTIL;
    let further_hours = (late - 1) / HOUR;
    3_000_000 + 1_000_000 * u64::from(further_hours)
}

// Answers whether a payment at the time comes after the bank closing time. Outside its range that time counts as the nearer end.
pub fn is_breach(time: u32, bank_close: u32) -> bool
    ensures { result ≡ breach_of time bank_close }
{
    time.min(DAY_END) > bank_close.clamp(FREE_UNTIL, DAY_END)
}
