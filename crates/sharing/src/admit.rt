ghost use Rattle.std.specs.Prelude.{◌≡◌};
ghost use Rattle.sharing.specs.Claims.{admissible, all_within_limits, share_code};
ghost use Rattle.sharing.specs.Register.{code_of};

use super::claim::Claim;
use super::distinct::all_distinct;
use super::refusal::Refusal;

// Whether each claim is within its limits.
fn all_within_limits(claims: &[Claim]) -> bool
    ensures { result ≡ all_within_limits claims.now }
{
    claims.iter().all(|claim| claim.is_within_limits())
}

// Whether the claims are such as an amount may be shared among.
fn is_admissible(claims: &[Claim]) -> bool
    ensures { result ≡ admissible claims.now }
{
    claims.len() <= 512 && all_within_limits(claims) && all_distinct(claims)
}

// Refuses claims that no rule shares among, and a place for shares of another length than the claims.
pub fn admit(claims: &[Claim], room: usize) -> Result<(), Refusal>
    ensures { code_of result ≡ share_code claims.now room }
{
    if !is_admissible(claims) || room != claims.len() {
        return Err(Refusal::Claims);
    }
    Ok(())
}
