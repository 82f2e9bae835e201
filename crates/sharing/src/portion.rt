ghost use Rattle.std.specs.Prelude.{◌≡◌, ◌<◌, ◌≤◌, true};
ghost use Rattle.sharing.specs.Claims.{admissible, claimed};
ghost use Rattle.sharing.specs.Shares.{part, remainder, shareable};

use super::claim::Claim;
use super::total::claimed_lots;

// An amount to share among claims that may share it, and no more than they come to.
#[derive(Clone, Copy)]
pub(crate) struct Portion<'a> {
    pub(crate) claims: &'a [Claim],
    pub(crate) amount: u32,
    pub(crate) all: u32,
    ghost admitted: { admissible claims.now ≡ true },
    ghost whole: { all ≡ claimed claims.now },
    ghost within: { amount ≤ all },
}

impl<'a> Portion<'a> {
    // The lesser of the amount and what is claimed.
    pub(crate) fn new(claims: &'a [Claim], amount: u32) -> Portion<'a>
        requires { admissible claims.now ≡ true }
        ensures claims { result.claims.now ≡ claims.now }
        ensures amount { result.amount ≡ shareable claims.now amount }
    {
        let all = claimed_lots(claims) as u32;
        Portion {
            claims,
            amount: amount.min(all),
            all,
        }
    }

    // A claim's part of the amount, its fraction dropped.
    pub(crate) fn part(&self, claim: &Claim) -> u32
        requires { 0 < self.now.all }
        ensures { result ≡ part self.now.amount self.now.all claim.now }
    {
        (u64::from(self.amount) * u64::from(claim.lots) / u64::from(self.all)) as u32
    }

    // The remainder of that division.
    pub(crate) fn remainder(&self, claim: &Claim) -> u32
        requires { 0 < self.now.all }
        ensures { result ≡ remainder self.now.amount self.now.all claim.now }
    {
        (u64::from(self.amount) * u64::from(claim.lots) % u64::from(self.all)) as u32
    }
}
