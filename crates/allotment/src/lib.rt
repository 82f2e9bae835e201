// What a closed tender allots: fills by offer, and a row for each buyer.
#![tactic(auto)]

mod buyer_claims;
mod fill;
mod filling;
mod pay;
mod price;
mod sides;
mod tender;

pub use pay::BuyerRow;
pub use sides::Sides;
pub use tender::{Allotted, allot, allot_standing, check_places};
