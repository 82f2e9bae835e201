// The financing tender that is settled: three firms, and a shortage.
use allotment::{BuyerRow, Sides};
use book::{Call, Change, Entry, Offer};
use sharing::StrideDraw;
use stages::{Buyer, Open, Terms, file};
use tender_run::{Outcome, Session, run_by_kind};

// The bank closing time of the tender.
pub(crate) const BANK_CLOSING: u32 = 64_800;

// The terms of the tender.
const FINANCING: Terms = Terms {
    kind: b'F',
    method: 2,
    shortfall: b'T',
    unit: 1_000,
    previous_close: 4_000,
    bank_closing: 64_800,
};

// The firms for which it is held.
const FIRMS: [Buyer; 3] = [
    Buyer {
        account: 7,
        lots: 5,
    },
    Buyer {
        account: 8,
        lots: 3,
    },
    Buyer {
        account: 9,
        lots: 2,
    },
];

// Makes an entry.
fn enter(time: u32, member: [u8; 4], account: u32, price: u32, lots: u32) -> Call {
    Call::Enter(Entry {
        time,
        member,
        account,
        price,
        lots,
    })
}

// Answers the calls of the tender, which ends in a shortage.
fn calls() -> [Call; 5] {
    [
        enter(52_200, *b"AAAA", 20, 4_300, 4),
        enter(52_300, *b"BBBB", 21, 4_310, 2),
        enter(52_400, *b"CCCC", 22, 4_310, 3),
        Call::Change(Change {
            time: 52_500,
            member: *b"CCCC",
            number: 2,
            price: 4_310,
            lots: 1,
        }),
        enter(54_000, *b"BBBB", 21, 4_300, 1),
    ]
}

// Files the tender and opens it, if neither is refused.
fn opened() -> Option<Open> {
    let filed = file(&FINANCING, &FIRMS).ok()?;
    filed.open(4_400).ok()
}

// Makes the draw that both sides use.
fn draw() -> Option<StrideDraw> {
    StrideDraw::new(3, 510).ok()
}

// Runs the tender into the rows, if nothing is refused.
pub(crate) fn allotted(rows: &mut [BuyerRow]) -> Option<Outcome> {
    let tender = opened()?;
    let draws = Sides {
        sellers: draw()?,
        buyers: draw()?,
    };
    let session = Session {
        calls: &calls(),
        buyers: &FIRMS,
        closing: 54_000,
    };
    let mut records = [Offer::default(); 512];
    let mut fills = [0; 512];
    run_by_kind(tender, &mut records, &session, &mut fills, rows, draws).ok()
}
