ghost use Rattle.std.specs.Prelude.{◌≡◌, ◌++◌, IfOk, string_bytes, OnOk};
ghost use Rattle.share.specs.Report.{heading, claim_line, claim_lines, total_line, report_of};
ghost use Rattle.share.specs.Rules.{rule_word};

use super::request::Request;
use super::rule::Rule;
use sharing::{Claim, claimed_lots, total_lots};
use std::alloc::{AllocError, Global};

// The first line.
fn first_line(
    heap: Global,
    rule: Rule,
    shared: u64,
    all: u64,
    count: usize,
) -> Result<String, AllocError>
    ensures { IfOk result (λ s. string_bytes s ≡ heading (rule_word rule) shared all count) }
{
    format!(in heap; "{rule} shares {shared} of {all} lots among {count} claims\n")
}

// One claim's line more.
fn push_claim(text: &mut String, heap: Global, claim: &Claim, share: u32) -> Result<(), AllocError>
    ensures { OnOk result (string_bytes text.new ≡ string_bytes text.old ++ claim_line claim.now share) }
{
    let Claim { number, lots } = *claim;
    let line = format!(in heap; "claim {number} lots {lots} gets {share}\n")?;
    text.push_str(line.as_str())
}

// A line more for each claim.
fn push_claims(
    text: &mut String,
    heap: Global,
    claims: &[Claim],
    shares: &[u32],
) -> Result<(), AllocError>
    ensures { OnOk result (string_bytes text.new ≡ string_bytes text.old ++ claim_lines claims.now shares.now) }
{
    for (claim, share) in claims.iter().zip(shares) {
        push_claim(text, heap, claim, *share)?;
    }
    Ok(())
}

// The last line more.
fn push_total(text: &mut String, heap: Global, total: u64) -> Result<(), AllocError>
    ensures { OnOk result (string_bytes text.new ≡ string_bytes text.old ++ total_line total) }
{
    let line = format!(in heap; "total {total}\n")?;
    text.push_str(line.as_str())
}

// The text that tells what was shared out.
pub(crate) fn report(heap: Global, request: &Request, shares: &[u32]) -> Result<String, AllocError>
    ensures { IfOk result (λ s. let q = request.now in string_bytes s ≡ report_of q.rule q.amount q.claims.items shares.now) }
{
    let claims = request.claims.as_slice();
    let all = claimed_lots(claims);
    let shared = all.min(u64::from(request.amount));
    let mut text = first_line(heap, request.rule, shared, all, claims.len())?;
    push_claims(&mut text, heap, claims, shares)?;
    push_total(&mut text, heap, total_lots(shares))?;
    Ok(text)
}
