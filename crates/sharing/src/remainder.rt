ghost use Rattle.sharing.specs.declared.leftover.Leftover.TheVariants.{ByRemainder};

use super::leftover::Leftover;
use super::quota::{Precedence, Quota};

// The larger remainder comes ahead, and of equal ones the smaller rank.
pub struct RemainderFirst;

impl Precedence for RemainderFirst {
    ghost LEFTOVER = { ByRemainder };

    const LEFTOVER: Leftover = Leftover::ByRemainder;
}

// The rule by which each claim gets its part with the fraction dropped, and the lots left over go by
// larger remainder of that division, equal remainders by the draw.
pub type LargestRemainder<D> = Quota<D, RemainderFirst>;
