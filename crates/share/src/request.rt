ghost use Rattle.std.specs.Prelude.{◌≡◌, min, map, length, IfOk, string_bytes, MatchResult};
ghost use Rattle.share.specs.Asked.{claims_of, Asked};
ghost use Rattle.share.specs.Rules.{shares_under, asked_code};
ghost use Rattle.sharing.specs.Register.{code_of};
ghost use Rattle.share.specs.Answers.{Answered, Failed};

use super::failure::Failure;
use super::report::report;
use super::rule::Rule;
use sharing::{Claim, LargestRemainder, Proportional, Refusal, SharingRule, StrideDraw, TimeOrder};
use std::alloc::Global;

// What the command line asks for.
#[derive(Drop)]
pub struct Request {
    pub rule: Rule,
    pub amount: u32,
    pub stride: u16,
    pub shift: u16,
    pub claims: Vec<Claim>,
}

// The number of the claim at a place; past the largest number there is none, and that one is refused.
fn number(place: usize) -> u16
    ensures { result ≡ min place 65535 }
{
    place.min(65_535) as u16
}

// The claims of those lots, numbered from 0 in the order given.
fn claims(heap: Global, lots: &[String]) -> Result<Vec<Claim>, Failure>
    ensures { IfOk result (λ v. v.items ≡ claims_of (map string_bytes lots.now)) }
{
    let mut claims = Vec::new(heap);
    for (place, lots) in lots.iter().enumerate() {
        let lots = lots.as_str().parse::<u32>()?;
        claims.push(Claim {
            number: number(place),
            lots,
        })?;
    }
    Ok(claims)
}

// What the words ask for: RULE AMOUNT STRIDE SHIFT LOTS...
pub fn read(heap: Global, words: &[String]) -> Result<Request, Failure>
    ensures { IfOk result (λ q. Asked (map string_bytes words.now) q) }
{
    if words.len() < 4 {
        return Err(Failure::Usage);
    }
    let rule = words[0].as_str().parse::<Rule>()?;
    let amount = words[1].as_str().parse::<u32>()?;
    let stride = words[2].as_str().parse::<u16>()?;
    let shift = words[3].as_str().parse::<u16>()?;
    let claims = claims(heap, &words[4..])?;
    Ok(Request {
        rule,
        amount,
        stride,
        shift,
        claims,
    })
}

// Writes the shares that are asked for.
fn share(request: &Request, shares: &mut [u32]) -> Result<(), Refusal>
    ensures code { code_of result ≡ let q = request.now in asked_code q.stride q.shift q.claims.items (length shares.old) }
    ensures shared { MatchResult result (λ _. let q = request.now in shares.new ≡ shares_under q.rule q.stride q.shift q.claims.items q.amount) (λ _. shares.new ≡ shares.old) }
{
    let claims = request.claims.as_slice();
    let amount = request.amount;
    let draw = StrideDraw::new(request.stride, request.shift)?;
    match request.rule {
        Rule::Proportional => {
            let mut proportional = Proportional::new(draw);
            proportional.share(claims, amount, shares)
        }
        Rule::Remainder => {
            let mut remainder = LargestRemainder::new(draw);
            remainder.share(claims, amount, shares)
        }
        Rule::Time => {
            let mut time = TimeOrder;
            time.share(claims, amount, shares)
        }
    }
}

// The work of `answer`, over a place for the shares.
fn answer_over(heap: Global, request: &Request, shares: &mut [u32]) -> Result<String, Failure>
    requires { length shares.old ≡ length request.now.claims.items }
    ensures { MatchResult result (λ s. Answered request.now (string_bytes s)) (λ f. Failed request.now f) }
{
    share(request, shares)?;
    let text = report(heap, request, shares)?;
    Ok(text)
}

// The text that tells the share of each claim.
pub fn answer(heap: Global, request: &Request) -> Result<String, Failure>
    ensures { MatchResult result (λ s. Answered request.now (string_bytes s)) (λ f. Failed request.now f) }
{
    let mut shares = vec![in heap; 0; request.claims.len()]?;
    answer_over(heap, request, shares.as_mut_slice())
}
