ghost use Rattle.std.specs.Prelude.{◌≡◌, ℕ, true, List, length, MatchResult};
ghost use Rattle.sharing.specs.Claims.{admissible, share_code, Fair};
ghost use Rattle.sharing.specs.Kept.{Kept};
ghost use Rattle.sharing.specs.Register.{code_of};
ghost use Rattle.sharing.specs.declared.claim.Claim.{Claim as Claimed};

use super::claim::Claim;
use super::refusal::Refusal;

// A sharing rule says for each list of claims and each amount what share each claim gets.
pub trait SharingRule {
    // The meaning: the shares of an amount, one for each claim.
    ghost shares_of: { Self → List Claimed → ℕ → List ℕ };

    // The condition that holds of a rule as it is made, and after each call.
    ghost sound: { Self → Type 0 };

    // Writes the shares of `amount` among the claims. Asking alters no answer, and a refusal no share.
    fn share(&mut self, claims: &[Claim], amount: u32, shares: &mut [u32]) -> Result<(), Refusal>
        ensures kept { Kept sound shares_of self.old self.new }
        ensures code { code_of result ≡ share_code claims.now (length shares.old) }
        ensures shared { MatchResult result (λ _. sound self.old → shares.new ≡ shares_of self.old claims.now amount) (λ _. shares.new ≡ shares.old) };

    // The law, which each rule owes.
    ghost lawful: { (s : Self) → sound s → (cs : List Claimed) → admissible cs ≡ true → (amount : ℕ) → Fair cs amount (shares_of s cs amount) };
}
