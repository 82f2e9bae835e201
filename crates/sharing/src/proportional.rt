ghost use Rattle.sharing.specs.declared.leftover.Leftover.TheVariants.{ByRank};

use super::leftover::Leftover;
use super::quota::{Precedence, Quota};

// The smaller rank comes ahead.
pub struct RankAlone;

impl Precedence for RankAlone {
    ghost LEFTOVER = { ByRank };

    const LEFTOVER: Leftover = Leftover::ByRank;
}

// The rule by which each claim gets its part with the fraction dropped, and the lots left over go by the draw alone.
pub type Proportional<D> = Quota<D, RankAlone>;
