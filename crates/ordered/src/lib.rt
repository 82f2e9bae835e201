// A list that keeps records in an order, in a row of records that the caller lends. Records of the same rank stand as they came.
#![tactic(auto)]

mod list;
mod order;
mod shift;

pub use list::{Full, OrderedList};
pub use order::Order;
