// Draws, and rules that share an amount among claims.
#![tactic(auto)]

mod admit;
mod candidate;
mod claim;
mod distinct;
mod divide;
mod draw;
mod example;
mod identity;
mod leftover;
mod lots;
mod numbered;
mod portion;
mod proportional;
mod quota;
mod recorded;
mod refusal;
mod remainder;
mod rule;
mod stride;
mod time;
mod total;

pub use claim::Claim;
pub use draw::Draw;
pub use example::worked_example;
pub use leftover::Leftover;
pub use lots::Lots;
pub use proportional::{Proportional, RankAlone};
pub use quota::{Precedence, Quota};
pub use recorded::RecordedDraw;
pub use refusal::Refusal;
pub use remainder::{LargestRemainder, RemainderFirst};
pub use rule::SharingRule;
pub use stride::StrideDraw;
pub use time::TimeOrder;
pub use total::{claimed_lots, total_lots};
