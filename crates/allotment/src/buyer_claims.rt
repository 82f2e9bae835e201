// Buyers as claims.
ghost use Rattle.std.specs.Prelude.{◌≡◌, ◌≤◌, length};
ghost use Rattle.allotment.specs.Rows.{claims_of};

use super::pay::ROWS;
use arrayvec::ArrayVec;
use sharing::Claim;
use stages::Buyer;

// Answers the buyers as claims, numbered from 0.
pub(crate) fn as_claims(buyers: &[Buyer]) -> ArrayVec<Claim, ROWS>
    requires { length buyers.now ≤ 8 }
    ensures { result.items ≡ claims_of buyers.now }
{
    let mut claims = ArrayVec::new();
    for (i, buyer) in buyers.iter().enumerate() {
        claims.push(Claim {
            number: i as u16,
            lots: buyer.lots,
        });
    }
    claims
}
