// Filing, opening and closing: each answers the first rule that is broken.
ghost use Rattle.std.specs.Prelude.{◌≡◌, ◌≤◌, IfErr};
ghost use Rattle.reference.specs.Register.{number_of};
ghost use Rattle.reference.specs.declared.refusal.Refusal.TheVariants.{Term};

use super::data::{Buyer, Kind, Method, Shortfall, Terms};
use super::lists::{total, twice};
use super::refusal::Refusal;
use std::ops::RangeInclusive;

// Whether kind, method and shortfall are known, and go together.
fn judge_choices(terms: &Terms) -> Result<(), Refusal>
    ensures { IfErr result (λ refusal. refusal ≡ Term) }
{
    let kind = Kind::try_from(terms.kind)?;
    let method = Method::try_from(terms.method)?;
    let shortfall = Shortfall::try_from(terms.shortfall)?;
    match (kind, method, shortfall) {
        (Kind::General, _, _) => Ok(()),
        (Kind::Financing, Method::AsOffered, Shortfall::Taken) => Ok(()),
        _ => Err(Refusal::Term),
    }
}

// Whether the numbers of the terms are in their ranges.
fn ranges_fit(terms: &Terms) -> bool {
    (1..=1_000).contains(&terms.unit)
        && (1..=800_000).contains(&terms.previous_close)
        && (55_800..=86_399).contains(&terms.bank_closing)
}

// Whether a tender of the kind may have the buyers.
fn buyers_fit(kind: Kind, buyers: &[Buyer]) -> bool {
    let most = match kind {
        Kind::General => 1,
        Kind::Financing => 8,
    };
    !buyers.is_empty() && buyers.len() <= most && !twice(buyers, |buyer| buyer.account)
}

// What the buyers ask for together.
pub(crate) fn demand(buyers: &[Buyer]) -> u64 {
    total(buyers, |buyer| buyer.lots)
}

// Whether each buyer's lots, and those of all, are in their range.
fn lots_fit(buyers: &[Buyer]) -> bool {
    buyers
        .iter()
        .all(|buyer| (1..=1_000_000).contains(&buyer.lots))
        && demand(buyers) <= 1_000_000
}

// Judges a filing.
pub fn judge_filing(terms: &Terms, buyers: &[Buyer]) -> Result<(), Refusal>
    ensures { IfErr result (λ refusal. number_of refusal ≤ 3) }
{
    judge_choices(terms)?;
    if !ranges_fit(terms) {
        return Err(Refusal::Term);
    }
    if !buyers_fit(terms.kind(), buyers) {
        return Err(Refusal::Accounts);
    }
    if !lots_fit(buyers) {
        return Err(Refusal::Demand);
    }
    Ok(())
}

// Judges an opening: the base price in hundredths of the previous close.
pub fn judge_opening(terms: &Terms, base: u32) -> Result<(), Refusal>
    ensures { IfErr result (λ refusal. number_of refusal ≤ 4) }
{
    let least = match terms.kind() {
        Kind::General => 85u64,
        Kind::Financing => 107,
    };
    let close = u64::from(terms.previous_close);
    let price = 100 * u64::from(base);
    if price < least * close || price > 115 * close {
        return Err(Refusal::BasePrice);
    }
    Ok(())
}

// The seconds at which calls are taken.
pub(crate) fn window(kind: Kind) -> RangeInclusive<u32> {
    match kind {
        Kind::General => 54_000..=57_599,
        Kind::Financing => 52_200..=53_999,
    }
}

// Judges the closing of a tender of the kind with the letter.
pub fn judge_closing(kind: u8, time: u32) -> Result<(), Refusal>
    ensures { IfErr result (λ refusal. number_of refusal ≤ 13) }
{
    if time <= *window(Kind::of(kind)).end() || time > 86_399 {
        return Err(Refusal::Closing);
    }
    Ok(())
}
