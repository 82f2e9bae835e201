// The values of the frames of a tender file, decoded and encoded.
#![tactic(auto)]

pub mod amount;
pub mod buyer;
pub mod cancellation;
pub mod change;
pub mod draw;
pub mod entry;
pub(crate) mod fields;
pub mod terms;
pub mod value;

pub use draw::DrawNumbers;
pub use value::Value;
