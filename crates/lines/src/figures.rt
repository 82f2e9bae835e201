// What was allotted, as text.
ghost use Rattle.std.specs.Prelude.{Some};
ghost use Rattle.lines.specs.Log.{figures_text};
ghost use Rattle.lines.specs.Parts.{price_text};

use allotment::Allotted;
use std::fmt;

// A price, or `-` where there is none.
#[derive(Clone, Copy)]
struct Price(Option<u32>);

impl fmt::Display for Price {
    ghost output = { λ p. Some (price_text p.0) };

    fn fmt<W: fmt::Write>(&self, f: &mut fmt::Formatter<W>) -> fmt::Result {
        match self.0 {
            Some(price) => write!(f, "{price}"),
            None => write!(f, "-"),
        }
    }
}

// What is due, the marginal price, the receipts and the fee.
#[derive(Clone, Copy)]
pub(crate) struct Figures(pub(crate) Allotted);

impl fmt::Display for Figures {
    ghost output = { λ x. Some (figures_text x.0) };

    fn fmt<W: fmt::Write>(&self, f: &mut fmt::Formatter<W>) -> fmt::Result {
        let Allotted {
            due,
            price,
            receipts,
            fee,
        } = self.0;
        let price = Price(price);
        write!(f, "due {due} price {price} total {receipts} fee {fee}")
    }
}
