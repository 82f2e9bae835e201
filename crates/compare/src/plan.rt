// A tender from filing to closing, as it is handed over to both sides.
use reference::{Buyer, Call, Places, Terms};
use std::alloc::Global;

#[derive(Drop)]
pub(crate) struct Plan {
    pub(crate) terms: Terms,
    pub(crate) buyers: Vec<Buyer>,
    pub(crate) stride: u32,
    pub(crate) shift: u32,
    pub(crate) base: u32,
    pub(crate) calls: Vec<Call>,
    pub(crate) closing: u32,
    // what no file says: other buyers than those filed, whether they are the ones handed over later, and the sizes of the places.
    // The mark stands by itself: buyers may be told of before it, and are handed over only where it is set.
    pub(crate) others: Vec<Buyer>,
    pub(crate) hands_others: bool,
    pub(crate) places: Places,
}

impl Plan {
    // A general tender by one price that takes a shortfall, without buyers and calls.
    pub(crate) fn general(heap: Global) -> Plan {
        Plan {
            terms: Terms {
                kind: b'G',
                method: 1,
                shortfall: b'T',
                unit: 1_000,
                previous_close: 4_000,
                bank_closing: 55_800,
            },
            buyers: Vec::new(heap),
            stride: 3,
            shift: 510,
            base: 4_200,
            calls: Vec::new(heap),
            closing: 57_600,
            others: Vec::new(heap),
            hands_others: false,
            places: Places {
                records: 512,
                fills: 512,
                rows: 8,
            },
        }
    }

    // A financing tender, without buyers and calls.
    pub(crate) fn financing(heap: Global) -> Plan {
        let mut plan = Plan::general(heap);
        plan.terms.kind = b'F';
        plan.terms.method = 2;
        plan.base = 4_400;
        plan.closing = 54_000;
        plan
    }

    // Whether it says that it is a general tender. The letter is handed over as it is, so that both sides judge it.
    pub(crate) fn is_general(&self) -> bool {
        self.terms.kind == b'G'
    }

    // The buyers that are handed over to calls and allotment.
    pub(crate) fn handed(&self) -> &[Buyer] {
        if self.hands_others {
            self.others.as_slice()
        } else {
            self.buyers.as_slice()
        }
    }
}
