// What a tender in any state knows of its terms and buyers.
ghost use Rattle.std.specs.Prelude.{◌≤◌};

use super::kind::Kind;
use super::method::Method;
use super::shortfall::Shortfall;

#[derive(Clone, Copy, PartialEq, Eq, Debug)]
pub struct Particulars {
    pub kind: Kind,
    pub method: Method,
    pub shortfall: Shortfall,
    // how many shares make a lot
    pub unit: u16,
    // the previous close, in cents per share
    pub previous_close: u32,
    // when the bank closes, in seconds since midnight
    pub bank_closing: u32,
    // how many buyers were filed
    pub buyers: usize,
    // the lots that they ask for together
    pub demand: u32,
    ghost units: { (1 ≤ unit) × (unit ≤ 1000) },
    ghost closes: { (1 ≤ previous_close) × (previous_close ≤ 800000) },
    ghost banks: { (55800 ≤ bank_closing) × (bank_closing ≤ 86399) },
    ghost counts: { (1 ≤ buyers) × (buyers ≤ 8) },
    ghost demands: { (1 ≤ demand) × (demand ≤ 1000000) },
}
