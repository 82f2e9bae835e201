// Filing: terms and buyers are tested, and become a tender.
ghost use Rattle.std.specs.Prelude.{◌≡◌, IfOk, ok_or};
ghost use Rattle.stages.specs.Filing.{choices_at, ranges_fit, filing_code, AsFiled};
ghost use Rattle.stages.specs.Register.{code_of};
ghost use Rattle.stages.specs.declared.refusal.Refusal.{Refusal};

use super::buyers::{buyers_fit, lots_fit, total};
use super::choices::Choices;
use super::filed::Filed;
use super::kind::Kind;
use super::method::Method;
use super::particulars::Particulars;
use super::refusal::Refusal;
use super::shortfall::Shortfall;
use super::terms::{Buyer, Terms};

// Answers the kind, method and shortfall of the terms, if they are known and go together.
fn choices(terms: &Terms) -> Result<Choices, Refusal>
    ensures { result ≡ ok_or (choices_at terms.now) Refusal.Term }
{
    let kind = Kind::try_from(terms.kind)?;
    let method = Method::try_from(terms.method)?;
    let shortfall = Shortfall::try_from(terms.shortfall)?;
    if !kind.allows(method, shortfall) {
        return Err(Refusal::Term);
    }
    Ok(Choices {
        kind,
        method,
        shortfall,
    })
}

// Answers whether the numbers of the terms are in their ranges.
fn ranges_fit(terms: &Terms) -> bool
    ensures { result ≡ ranges_fit terms.now }
{
    (1..=1_000).contains(&terms.unit)
        && (1..=800_000).contains(&terms.previous_close)
        && (55_800..=86_399).contains(&terms.bank_closing)
}

// Files a tender for the buyers, or refuses it.
pub fn file(terms: &Terms, buyers: &[Buyer]) -> Result<Filed, Refusal>
    ensures code { code_of result ≡ filing_code terms.now buyers.now }
    ensures state { IfOk result (λ f. AsFiled terms.now buyers.now f.particulars) }
{
    let choices = choices(terms)?;
    if !ranges_fit(terms) {
        return Err(Refusal::Term);
    }
    if !buyers_fit(choices.kind, buyers) {
        return Err(Refusal::Accounts);
    }
    if !lots_fit(buyers) {
        return Err(Refusal::Demand);
    }
    let particulars = Particulars {
        kind: choices.kind,
        method: choices.method,
        shortfall: choices.shortfall,
        unit: terms.unit,
        previous_close: terms.previous_close,
        bank_closing: terms.bank_closing,
        buyers: buyers.len(),
        demand: total(buyers) as u32,
    };
    Ok(Filed { particulars })
}
