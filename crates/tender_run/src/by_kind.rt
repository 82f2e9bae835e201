// The run of a tender under the rules of its kind.
ghost use Rattle.std.specs.Prelude.{◌≡◌, length, IfOk, IfErr};
ghost use Rattle.sharing.specs.Shares.{largest_remainder};
ghost use Rattle.stages.specs.Register.{step_code_of};
ghost use Rattle.tender_run.specs.Promise.{RunPromise};
ghost use Rattle.tender_run.specs.Runs.{rule_of, run_code};

use super::running::{Outcome, run};
use super::session::Session;
use allotment::{BuyerRow, Sides};
use book::Offer;
use sharing::{Draw, LargestRemainder, Proportional, TimeOrder};
use stages::{Kind, Open, Refusal};

// Runs a tender from its opening to its allotment, under the rules of its kind: sellers at one price share in proportion in a
// general tender, and are served by time in a financing tender. Buyers share by largest remainder.
pub fn run_by_kind<D: Draw + Drop, E: Draw + Drop>(
    tender: Open,
    records: &mut [Offer],
    session: &Session,
    fills: &mut [u32],
    rows: &mut [BuyerRow],
    draws: Sides<D, E>,
) -> Result<Outcome, (Refusal, Open)>
    ensures code { step_code_of result ≡ run_code tender.particulars session.now.closing (length records.old) (length fills.old) (length rows.old) session.now.buyers.now }
    ensures unchanged { IfErr result (λ e. (e.1 ≡ tender) × (records.new ≡ records.old) × (fills.new ≡ fills.old) × (rows.new ≡ rows.old)) }
    ensures promise { IfOk result (λ o. D.Draw.sound draws.sellers → E.Draw.sound draws.buyers → RunPromise (rule_of tender.particulars.kind (D.Draw.rank_of draws.sellers)) (largest_remainder (E.Draw.rank_of draws.buyers)) tender session.now.calls.now session.now.buyers.now o records.new fills.new rows.new) }
{
    let Sides { sellers, buyers } = draws;
    let mut buyers = LargestRemainder::new(buyers);
    let buyers = &mut buyers;
    match tender.particulars().kind {
        Kind::General => {
            let sellers = &mut Proportional::new(sellers);
            run(
                tender,
                records,
                session,
                fills,
                rows,
                Sides { sellers, buyers },
            )
        }
        Kind::Financing => {
            let sellers = &mut TimeOrder;
            run(
                tender,
                records,
                session,
                fills,
                rows,
                Sides { sellers, buyers },
            )
        }
    }
}
