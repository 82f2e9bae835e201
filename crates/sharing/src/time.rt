ghost use Rattle.std.specs.Prelude.{◌≡◌, length};
ghost use Rattle.sharing.specs.TimeOrder.{in_turn};
ghost use Rattle.sharing.specs.InTurn.{in_turn_fair};

use super::admit::admit;
use super::claim::Claim;
use super::refusal::Refusal;
use super::rule::SharingRule;

// The rule by which each claim in turn gets the lesser of its lots and what is left.
#[derive(Clone, Copy, PartialEq, Eq, Debug)]
pub struct TimeOrder;

// Fills the claims in turn.
fn fill(claims: &[Claim], amount: u32, shares: &mut [u32])
    requires { length shares.old ≡ length claims.now }
    ensures { shares.new ≡ in_turn claims.now amount }
{
    let mut left = amount;
    // A share is written at its place: of what a zip with `shares.iter_mut()` writes, nothing is known.
    for (i, claim) in claims.iter().enumerate() {
        let part = claim.lots.min(left);
        shares[i] = part;
        left -= part;
    }
}

impl SharingRule for TimeOrder {
    ghost shares_of = { λ _ cs amount. in_turn cs amount };

    ghost sound = { λ _. Unit {0} };

    ghost lawful = { λ s sound cs admitted n. in_turn_fair cs n };

    fn share(&mut self, claims: &[Claim], amount: u32, shares: &mut [u32]) -> Result<(), Refusal> {
        admit(claims, shares.len())?;
        fill(claims, amount, shares);
        Ok(())
    }
}
