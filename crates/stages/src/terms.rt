// What is handed over for filing, not yet trusted.

// The terms of a tender.
#[derive(Clone, Copy, PartialEq, Eq, Debug)]
pub struct Terms {
    // The kind, method and shortfall stand as they are handed over: filing refuses what is none, and asks no more of callers.
    // the letter of the kind
    pub kind: u8,
    // the number of the method
    pub method: u8,
    // the letter of the shortfall
    pub shortfall: u8,
    // how many shares make a lot
    pub unit: u16,
    // the previous close, in cents per share
    pub previous_close: u32,
    // when the bank closes, in seconds since midnight
    pub bank_closing: u32,
}

// A buyer, and the lots that it asks for.
#[derive(Clone, Copy, PartialEq, Eq, Debug, Default)]
pub struct Buyer {
    pub account: u32,
    pub lots: u32,
}
