ghost use Rattle.std.specs.Prelude.{◌≡◌, [], ◌∷◌};
ghost use Rattle.sharing.specs.Example.{RemainderExample, ProportionalExample};

use super::claim::Claim;
use super::recorded::RecordedDraw;
use super::remainder::LargestRemainder;
use super::rule::SharingRule;

// Claims of 5, 3 and 2 lots with 7 to share, by largest remainder; and what the rules mean on the worked examples.
pub fn worked_example() -> [u32; 3]
    ensures shares { result ≡ 4 ∷ 2 ∷ 1 ∷ [] }
    ensures remainder { RemainderExample }
    ensures proportional { ProportionalExample }
{
    let claims = [
        Claim { number: 0, lots: 5 },
        Claim { number: 1, lots: 3 },
        Claim { number: 2, lots: 2 },
    ];
    let mut shares = [0; 3];
    let mut rule = LargestRemainder::new(RecordedDraw::new(&[]));
    let _ = rule.share(&claims, 7, &mut shares);
    shares
}
