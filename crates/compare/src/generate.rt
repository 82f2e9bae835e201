// Generated tenders: most of them good, with few distinct prices so that ties are common, and now and then a fault.
use super::dice::Dice;
use super::plan::Plan;
use reference::{Buyer, Call};
use std::alloc::{AllocError, Global};

// Members, one of them with a code that does not print.
const MEMBERS: [[u8; 4]; 4] = [*b"AAAA", *b"BBBB", *b"C!~C", [0, 255, 32, 65]];

// One of the members.
fn member(dice: &mut Dice) -> [u8; 4] {
    MEMBERS[dice.below(4) as usize]
}

// Numbers of the terms, at the ends of their ranges too, and now and then beyond them.
fn fill_terms(plan: &mut Plan, dice: &mut Dice) {
    plan.terms.unit = match dice.below(8) {
        0 => 1,
        1 => 1_000,
        _ => dice.between(1, 1_000),
    };
    plan.terms.previous_close = match dice.below(8) {
        0 => 800_000,
        1 => dice.between(1, 20),
        _ => dice.between(1_000, 90_000),
    };
    plan.terms.bank_closing = dice.between(55_800, 86_399);
    if dice.once_in(60) {
        plan.terms.unit = dice.below(2) * 1_001;
    }
    if dice.once_in(60) {
        plan.terms.previous_close = dice.below(2) * 800_001;
    }
    if dice.once_in(60) {
        plan.terms.bank_closing = dice.below(100_000);
    }
    if dice.once_in(60) {
        plan.terms.method = dice.below(4) as u8;
    }
    if dice.once_in(60) {
        plan.terms.kind = b'A' + dice.below(8) as u8;
    }
}

// A base price in its span, or about there.
fn fill_base(plan: &mut Plan, dice: &mut Dice) {
    let least = if plan.is_general() { 85 } else { 107 };
    let percent = u64::from(dice.between(least, 115));
    let close = u64::from(plan.terms.previous_close);
    let base = (close * percent + 99) / 100;
    plan.base = u32::try_from(base).unwrap_or(0);
    if dice.once_in(40) {
        plan.base = plan.base.saturating_sub(1);
    }
    if dice.once_in(40) {
        plan.base = dice.below(1_000_000);
    }
}

// How many lots: mostly few.
fn lots(dice: &mut Dice) -> u32 {
    match dice.below(24) {
        0 => dice.between(1, 1_000),
        1 => dice.between(1, 30_000),
        _ => dice.between(1, 12),
    }
}

// Buyers, mostly as many as the kind may have.
fn fill_buyers(plan: &mut Plan, dice: &mut Dice) -> Result<(), AllocError> {
    let most = if plan.is_general() { 1 } else { 8 };
    let count = dice.between(1, most);
    for account in 7..count.saturating_add(7) {
        let lots = lots(dice).saturating_add(dice.below(30));
        plan.buyers.push(Buyer { account, lots })?;
    }
    if dice.once_in(40) {
        let lots = dice.below(2_000_000);
        plan.buyers.push(Buyer {
            account: 7 + dice.below(9),
            lots,
        })?;
    }
    Ok(())
}

// A price, one of a few.
fn price(plan: &Plan, dice: &mut Dice) -> u32 {
    if dice.once_in(30) {
        return if dice.once_in(2) {
            0
        } else {
            plan.base.saturating_add(1)
        };
    }
    plan.base.saturating_sub(dice.below(4))
}

// A call at the time: most are entries.
fn call(plan: &Plan, dice: &mut Dice, time: u32) -> Call {
    let member = member(dice);
    let price = price(plan, dice);
    let mut lots = lots(dice);
    if dice.once_in(40) {
        lots = dice.below(2) * 1_000_001;
    }
    let number = dice.below(plan.calls.len().min(520) as u32 + 1);
    match dice.below(8) {
        0 => Call::Cancel {
            time,
            member,
            number,
        },
        1 => Call::Change {
            time,
            member,
            number,
            price,
            lots,
        },
        _ => Call::Enter {
            time,
            member,
            account: dice.between(14, 30),
            price,
            lots,
        },
    }
}

// Calls in the window, one after the other, but for a few.
fn fill_calls(plan: &mut Plan, dice: &mut Dice) -> Result<(), AllocError> {
    let count = match dice.below(40) {
        0 => 0,
        1 => dice.between(500, 700),
        2 => dice.between(100, 300),
        _ => dice.between(1, 30),
    };
    let first = if plan.is_general() { 54_000u32 } else { 52_200 };
    let mut time = first;
    for _ in 0..count {
        time = time.saturating_add(dice.below(4));
        let at = match dice.below(40) {
            0 => time.saturating_sub(dice.below(5)),
            1 => time.saturating_add(3_600),
            _ => time,
        };
        let call = call(plan, dice, at);
        plan.calls.push(call)?;
    }
    Ok(())
}

// A generated tender.
pub(crate) fn generated(heap: Global, dice: &mut Dice) -> Result<Plan, AllocError> {
    let mut plan = if dice.once_in(2) {
        Plan::general(heap)
    } else {
        Plan::financing(heap)
    };
    if plan.is_general() {
        plan.terms.method = 1 + dice.below(2) as u8;
        plan.terms.shortfall = if dice.once_in(2) { b'T' } else { b'V' };
    }
    fill_buyers(&mut plan, dice)?;
    fill_terms(&mut plan, dice);
    plan.stride = dice.below(256) * 2 + 1;
    plan.shift = dice.below(512);
    if dice.once_in(60) {
        plan.stride = dice.below(1_024);
    }
    fill_base(&mut plan, dice);
    fill_calls(&mut plan, dice)?;
    plan.closing = plan.closing.saturating_add(dice.below(100));
    if dice.once_in(40) {
        plan.closing = dice.below(100_000);
    }
    Ok(plan)
}

// Does some damage to a file.
pub(crate) fn damage(file: &mut Vec<u8>, dice: &mut Dice) -> Result<(), AllocError> {
    let length = file.len().min(100_000) as u32;
    match dice.below(4) {
        0 => file.truncate(dice.below(length) as usize),
        1 => {
            for _ in 0..dice.between(1, 9) {
                file.push(dice.below(10) as u8)?;
            }
        }
        _ => {
            let value = dice.below(256) as u8;
            if let Some(byte) = file.get_mut(dice.below(length) as usize) {
                *byte = value;
            }
        }
    }
    Ok(())
}
