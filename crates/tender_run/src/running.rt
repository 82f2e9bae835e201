// The run of a whole tender.
ghost use Rattle.std.specs.Prelude.{◌≡◌, ◌≤◌, length, IfOk, IfErr};
ghost use Rattle.stages.specs.Register.{code_of, step_code_of};
ghost use Rattle.stages.specs.Steps.{closing_code};
ghost use Rattle.allotment.specs.Promise.{Asked};
ghost use Rattle.allotment.specs.Sides.{BothKept};
ghost use Rattle.tender_run.specs.Promise.{RunPromise};
ghost use Rattle.tender_run.specs.Runs.{run_code};

use super::calls::make_calls;
use super::session::Session;
use super::standing::{copy_standing, write_back};
use allotment::{Allotted, BuyerRow, Sides, allot_standing, check_places};
use book::{Book, Offer};
use sharing::SharingRule;
use stages::{Open, Particulars, Refusal};

// What a run answers beside the records, the fills and the rows.
#[derive(Clone, Copy, PartialEq, Eq, Debug, Default)]
pub struct Outcome {
    pub allotted: Allotted,
    // how many calls were accepted, and how many refused
    pub accepted: usize,
    pub refused: usize,
    // how many offers stand: they are the first so many records, in order
    pub standing: usize,
}

// Refuses a closing time, places or buyers that a run would be refused for.
fn check_run(
    particulars: Particulars,
    session: &Session,
    records: usize,
    fills: usize,
    rows: usize,
) -> Result<(), Refusal>
    ensures { code_of result ≡ run_code particulars session.now.closing records fills rows session.now.buyers.now }
{
    if !particulars.kind.is_over_at(session.closing) {
        return Err(Refusal::Closing);
    }
    check_places(particulars, records, session.buyers, fills, rows)
}

// The run of a tender on a fresh book over the records, once closing time, places and buyers were asked about. The standing
// offers are copied.
fn run_fresh<S: SharingRule, B: SharingRule>(
    tender: Open,
    records: &mut [Offer],
    session: &Session,
    offers: &mut [Offer],
    fills: &mut [u32],
    rows: &mut [BuyerRow],
    rules: Sides<&mut S, &mut B>,
) -> Result<Outcome, (Refusal, Open)>
    requires { length records.old ≤ length offers.old }
    ensures code { step_code_of result ≡ closing_code tender.particulars session.now.closing }
    ensures few { IfOk result (λ o. o.standing ≤ length records.old) }
    ensures kept { BothKept S.SharingRule.sound S.SharingRule.shares_of B.SharingRule.sound B.SharingRule.shares_of rules.entry.sellers.now rules.exit.0.now rules.entry.buyers.now rules.exit.1.0.now }
    ensures promise { IfOk result (λ o. length records.old ≡ 512 → Asked tender.particulars (length fills.old) (length rows.old) session.now.buyers.now → S.SharingRule.sound rules.entry.sellers.now → B.SharingRule.sound rules.entry.buyers.now → RunPromise (S.SharingRule.shares_of rules.entry.sellers.now) (B.SharingRule.shares_of rules.entry.buyers.now) tender session.now.calls.now session.now.buyers.now o offers.new fills.new rows.new) }
{
    let mut book = Book::new(records);
    let accepted = make_calls(&mut book, &tender, session);
    let closed = tender.close(session.closing)?;
    let particulars = closed.particulars();
    let allotted = allot_standing(particulars, &book, session.buyers, fills, rows, rules);
    Ok(Outcome {
        allotted,
        accepted,
        refused: session.calls.len() - accepted,
        standing: copy_standing(&book, offers),
    })
}

// Runs a tender from its opening to its allotment: makes the book on the records, makes every call in turn, refused or not,
// closes and allots. A refusal leaves records, fills and rows as they were, and hands the tender back.
pub fn run<S: SharingRule, B: SharingRule>(
    tender: Open,
    records: &mut [Offer],
    session: &Session,
    fills: &mut [u32],
    rows: &mut [BuyerRow],
    rules: Sides<&mut S, &mut B>,
) -> Result<Outcome, (Refusal, Open)>
    ensures code { step_code_of result ≡ run_code tender.particulars session.now.closing (length records.old) (length fills.old) (length rows.old) session.now.buyers.now }
    ensures unchanged { IfErr result (λ e. (e.1 ≡ tender) × (records.new ≡ records.old) × (fills.new ≡ fills.old) × (rows.new ≡ rows.old)) }
    ensures kept { BothKept S.SharingRule.sound S.SharingRule.shares_of B.SharingRule.sound B.SharingRule.shares_of rules.entry.sellers.now rules.exit.0.now rules.entry.buyers.now rules.exit.1.0.now }
    ensures promise { IfOk result (λ o. S.SharingRule.sound rules.entry.sellers.now → B.SharingRule.sound rules.entry.buyers.now → RunPromise (S.SharingRule.shares_of rules.entry.sellers.now) (B.SharingRule.shares_of rules.entry.buyers.now) tender session.now.calls.now session.now.buyers.now o records.new fills.new rows.new) }
{
    let particulars = tender.particulars();
    if let Err(refusal) = check_run(particulars, session, records.len(), fills.len(), rows.len()) {
        return Err((refusal, tender));
    }
    let mut offers = [Offer::default(); 512];
    let outcome = run_fresh(tender, records, session, &mut offers, fills, rows, rules)?;
    write_back(&offers, outcome.standing, records);
    Ok(outcome)
}
