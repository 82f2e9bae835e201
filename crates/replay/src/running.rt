// An open tender, run with the calls of its file.
ghost use Rattle.std.specs.Prelude.{◌≡◌, ◌≤◌, true, length, IfOk, IfErr, OnOk};
ghost use Rattle.stages.specs.Buyers.{as_filed};
ghost use Rattle.stages.specs.Steps.{closing_code};
ghost use Rattle.messages.specs.Reading.{file_of, next_place};
ghost use Rattle.replay.specs.Heading.{Refused};
ghost use Rattle.replay.specs.Running.{RunRead, RunStops, RunPromised};

use super::reading::{CALLS, read_calls, read_end};
use allotment::{BuyerRow, Sides};
use arrayvec::ArrayVec;
use book::{Call, Offer};
use faults::ProgramFault;
use messages::MessageReader;
use sharing::Draw;
use stages::{Buyer, Open};
use tender_run::{Outcome, Session, run_by_kind};

// What the run of an open tender answers.
#[derive(Drop)]
pub struct Ran {
    pub outcome: Outcome,
    // the standing offers, in order
    pub offers: ArrayVec<Offer, 512>,
    // what each offer is filled, by its number
    pub fills: [u32; 512],
    // what each buyer gets and pays
    pub rows: [BuyerRow; 8],
}

// Runs the tender through the session. One draw serves both rules, and the place of a refusal is that of the closing.
fn run_session<D: Draw + Copy + Drop>(
    tender: Open,
    session: &Session,
    draw: D,
    place: usize,
) -> Result<Ran, ProgramFault>
    requires { as_filed tender.particulars session.now.buyers.now ≡ true }
    ensures closed { OnOk result (closing_code tender.particulars session.now.closing ≡ 0) }
    ensures fault { IfErr result (λ e. Refused (closing_code tender.particulars session.now.closing) place e) }
    ensures promise { IfOk result (λ r. D.Draw.sound draw → RunPromised (D.Draw.rank_of draw) tender session.now.calls.now session.now.buyers.now r) }
{
    let mut records = [Offer::default(); 512];
    let mut fills = [0; 512];
    let mut rows = [BuyerRow::default(); 8];
    let draws = Sides {
        sellers: draw,
        buyers: draw,
    };
    let outcome = run_by_kind(tender, &mut records, session, &mut fills, &mut rows, draws).map_err(
        |refused| ProgramFault::Rule(refused.0, place),
    )?;
    let mut offers = ArrayVec::from(records);
    offers.truncate(outcome.standing);
    Ok(Ran {
        outcome,
        offers,
        fills,
        rows,
    })
}

// Reads the calls and the closing, runs the tender with them, and reads that nothing stands behind.
pub(crate) fn run_open<'a, D: Draw + Copy + Drop>(
    reader: &mut MessageReader<'a>,
    tender: Open,
    buyers: &[Buyer],
    draw: D,
) -> Result<Ran, ProgramFault>
    requires short { length (file_of reader.old) ≤ 65536 }
    requires buyers { as_filed tender.particulars buyers.now ≡ true }
    ensures read { IfOk result (λ r. D.Draw.sound draw → RunRead (file_of reader.old) (next_place reader.old) (D.Draw.rank_of draw) tender buyers.now r) }
    ensures fault { IfErr result (λ e. RunStops (file_of reader.old) (next_place reader.old) tender buyers.now e) }
{
    let mut calls = [Call::default(); CALLS];
    let ending = read_calls(reader, &mut calls)?;
    let session = Session {
        calls: &calls[..ending.count],
        buyers,
        closing: ending.closing,
    };
    let ran = run_session(tender, &session, draw, ending.place)?;
    read_end(reader)?;
    Ok(ran)
}
