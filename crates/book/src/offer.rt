// An offer to sell, and the order in which offers stand.
ghost use Rattle.std.specs.Prelude.{◌≡◌};
ghost use Rattle.book.specs.Offers.{cheaper, of_member};
ghost use Rattle.std.proofs.Common.{rules};

use ordered::Order;

#[derive(Clone, Copy, PartialEq, Eq, Debug, Default)]
pub struct Offer {
    // the number given at entry
    pub number: u16,
    // the code of the member that entered it
    pub member: [u8; 4],
    pub account: u32,
    // in cents per share
    pub price: u32,
    pub lots: u32,
}

impl Offer {
    // Answers whether the offer is the member's.
    pub fn is_of(&self, member: [u8; 4]) -> bool
        ensures { result ≡ of_member self.now member }
    {
        self.member == member
    }
}

// Offers stand by price alone.
impl Order for Offer {
    ghost before = { cheaper };

    ghost total = { Prim.search rules };

    ghost transitive = { Prim.search rules };

    fn at_or_before(&self, other: &Offer) -> bool {
        self.price <= other.price
    }
}
