// A financing tender run whole and then settled, as a caller of the library does it; and the worked examples of all layers.
#![tactic(auto)]

mod financing;
mod settling;
mod worked;

use allotment::BuyerRow;
use financing::{BANK_CLOSING, allotted};
use settling::show_settlement;
use std::io;
use worked::worked_examples;

// Has a financing tender run, settles it, and ends with the worked examples.
fn start(rt: &HostRuntime) -> io::Result<()> {
    let mut rows = [BuyerRow::default(); 8];
    if allotted(&mut rows).is_none() {
        return println!(rt; "the tender is refused");
    }
    show_settlement(rt, &mut rows, BANK_CLOSING)?;
    let ([first, second, third], charge) = worked_examples();
    println!(rt; "claims of 5, 3 and 2 with 7 to share get {first}, {second} and {third}")?;
    println!(rt; "a payment a second late costs {charge}")
}

fn main(rt: HostRuntime) -> io::Result<()> {
    start(&rt)
}
