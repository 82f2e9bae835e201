// The rules of tender purchases written a second time, as plainly as possible. Nothing here is shared with the product, and
// nothing here is meant to be fast: a program runs both and compares what they answer.
#![tactic(auto)]

mod allotting;
mod data;
mod filing;
mod frames;
mod lines;
mod lists;
mod refusal;
mod running;
mod settling;
mod sharing;
mod trading;

pub use allotting::{Allotment, Row, allot, judge_allotment};
pub use data::{Buyer, Call, Claim, Places, Terms};
pub use filing::{judge_closing, judge_filing, judge_opening};
pub use lines::{statement, tender};
pub use refusal::Refusal;
pub use settling::{Receipt, bill, settle};
pub use sharing::{
    Rule, judge_claims, judge_ranks, judge_stride, rank, recorded_ranks, shares, stride_ranks,
};
pub use trading::{Offer, Trading};
