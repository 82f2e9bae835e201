ghost use Rattle.std.specs.Prelude.{◌≡◌, ◌+◌, sum_by};
ghost use Rattle.sharing.specs.Claims.{claimed};
ghost use Rattle.sharing.specs.Totals.{capped};

use super::claim::Claim;
use super::lots::Lots;

// What the lots of the items come to, as far as 64 bits tell.
pub fn total_lots<T: Lots>(items: &[T]) -> u64
    ensures { result ≡ capped (sum_by T.lots_of items.now) }
{
    items.iter().fold(0, |all, item| add_lots(all, item.lots()))
}

// The total and the lots, as far as 64 bits tell.
fn add_lots(total: u64, lots: u32) -> u64
    ensures { result ≡ capped (total + lots) }
{
    total.saturating_add(u64::from(lots))
}

// The lots that are claimed together, as far as 64 bits tell.
pub fn claimed_lots(claims: &[Claim]) -> u64
    ensures { result ≡ capped (claimed claims.now) }
{
    total_lots(claims)
}
