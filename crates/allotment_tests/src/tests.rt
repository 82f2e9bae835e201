// Tenders of both kinds, run from their opening to their allotment.
use allotment::{Allotted, BuyerRow, Sides};
use book::{Call, Entry, Offer};
use sharing::RecordedDraw;
use stages::{Buyer, Open, Terms, file};
use tender_run::{Outcome, Session, run_by_kind};

// Terms of 1,000 shares a lot, at a previous close of 4,000.
fn terms(kind: u8, method: u8, shortfall: u8) -> Terms {
    Terms {
        kind,
        method,
        shortfall,
        unit: 1_000,
        previous_close: 4_000,
        bank_closing: 55_800,
    }
}

fn buyer(account: u32, lots: u32) -> Buyer {
    Buyer { account, lots }
}

fn entry(time: u32, price: u32, lots: u32) -> Call {
    Call::Enter(Entry {
        time,
        member: *b"AAAA",
        account: 20,
        price,
        lots,
    })
}

// Opens a tender at the base price, if it can be filed and opened.
fn opened(terms: Terms, buyers: &[Buyer], base: u32) -> Option<Open> {
    let filed = file(&terms, buyers).ok()?;
    filed.open(base).ok()
}

// Runs a tender over these places. The error is the number of the refusal.
fn run_over(
    tender: Open,
    session: &Session,
    records: &mut [Offer],
    fills: &mut [u32],
    rows: &mut [BuyerRow],
) -> Result<Outcome, u8> {
    let draws = Sides {
        sellers: RecordedDraw::new(&[]),
        buyers: RecordedDraw::new(&[]),
    };
    run_by_kind(tender, records, session, fills, rows, draws).map_err(|refused| refused.0.number())
}

// What a run of a tender came to.
#[derive(Clone, Copy)]
struct Figures {
    allotted: Allotted,
    fills: [u32; 512],
    rows: [BuyerRow; 8],
}

// Opens a tender and runs it over places of the right sizes. There is no number where it cannot be opened.
fn figures_of(
    terms: Terms,
    base: u32,
    filed: &[Buyer],
    session: &Session,
) -> Result<Figures, Option<u8>> {
    let tender = opened(terms, filed, base).ok_or(None)?;
    let mut records = [Offer::default(); 512];
    let mut fills = [0; 512];
    let mut rows = [BuyerRow::default(); 8];
    let outcome = run_over(tender, session, &mut records, &mut fills, &mut rows).map_err(Some)?;
    Ok(Figures {
        allotted: outcome.allotted,
        fills,
        rows,
    })
}

// The number of a general tender's run over these places.
fn place_code(records: &mut [Offer], fills: &mut [u32], rows: &mut [BuyerRow]) -> Option<u8> {
    let buyers = [buyer(7, 10)];
    let tender = opened(terms(b'G', 1, b'T'), &buyers, 4_200)?;
    let session = Session {
        calls: &[],
        buyers: &buyers,
        closing: 57_600,
    };
    run_over(tender, &session, records, fills, rows).err()
}

// The number of a financing tender's run, filed for two buyers of 5 lots, with other buyers handed over.
fn buyer_code(buyers: &[Buyer]) -> Option<u8> {
    let session = Session {
        calls: &[],
        buyers,
        closing: 54_000,
    };
    figures_of(
        terms(b'F', 2, b'T'),
        4_300,
        &[buyer(7, 5), buyer(8, 5)],
        &session,
    )
    .err()?
}

#[test]
fn places_are_asked(rt: HostRuntime) {
    let offer = Offer::default();
    let row = BuyerRow::default();
    assert_eq!(rt;
        place_code(&mut [offer; 511], &mut [0; 512], &mut [row; 8]),
        Some(14)
    );
    assert_eq!(rt;
        place_code(&mut [offer; 512], &mut [0; 513], &mut [row; 8]),
        Some(14)
    );
    assert_eq!(rt;
        place_code(&mut [offer; 512], &mut [0; 512], &mut [row; 9]),
        Some(14)
    );
}

#[test]
fn buyers_are_asked(rt: HostRuntime) {
    assert_eq!(rt; buyer_code(&[buyer(7, 10)]), Some(15));
    assert_eq!(rt; buyer_code(&[buyer(7, 5), buyer(8, 6)]), Some(15));
    assert_eq!(rt; buyer_code(&[buyer(7, 10), buyer(8, 0)]), Some(15));
}

// What a general tender at one price, with base price 4,200 and closed at 57,600, comes to.
fn general(buyers: &[Buyer], calls: &[Call]) -> Result<Figures, Option<u8>> {
    let session = Session {
        calls,
        buyers,
        closing: 57_600,
    };
    figures_of(terms(b'G', 1, b'T'), 4_200, buyers, &session)
}

// What a financing tender at offered prices, with base price 4,400 and closed at 54,000, comes to.
fn financing(buyers: &[Buyer], calls: &[Call]) -> Result<Figures, Option<u8>> {
    let session = Session {
        calls,
        buyers,
        closing: 54_000,
    };
    figures_of(terms(b'F', 2, b'T'), 4_400, buyers, &session)
}

#[test]
fn general_tender_with_ties(rt: HostRuntime) {
    let calls = [
        entry(54_000, 4_000, 7),
        entry(54_000, 4_100, 2),
        entry(54_000, 4_100, 4),
    ];
    let figures = general(&[buyer(7, 10)], &calls).expect(&rt, "a run");
    assert_eq!(rt; figures.allotted.due, 10);
    assert_eq!(rt; figures.allotted.price, Some(4_100));
    assert_eq!(rt; figures.fills[1], 1);
    assert_eq!(rt; figures.fills[2], 2);
    assert_eq!(rt; figures.rows[0].payment, 41_000_000);
}

#[test]
fn financing_tender_in_a_shortage(rt: HostRuntime) {
    let buyers = [buyer(7, 5), buyer(8, 3), buyer(9, 2)];
    let calls = [entry(52_200, 4_300, 4), entry(52_201, 4_302, 3)];
    let figures = financing(&buyers, &calls).expect(&rt, "a run");
    assert_eq!(rt; figures.allotted.due, 7);
    assert_eq!(rt; figures.allotted.price, Some(4_302));
    assert_eq!(rt; figures.allotted.receipts, 30_106_000);
    assert_eq!(rt; figures.rows[0].payment, 17_203_428);
}

#[test]
fn financing_tender_with_ties(rt: HostRuntime) {
    let calls = [entry(52_200, 4_300, 4), entry(52_201, 4_300, 4)];
    let figures = financing(&[buyer(7, 5)], &calls).expect(&rt, "a run");
    assert_eq!(rt; figures.allotted.due, 5);
    assert_eq!(rt; figures.fills[0], 4);
    assert_eq!(rt; figures.fills[1], 1);
}

#[test]
fn general_tender_in_a_shortage(rt: HostRuntime) {
    let figures = general(&[buyer(7, 10)], &[entry(54_000, 4_000, 7)]).expect(&rt, "a run");
    assert_eq!(rt; figures.allotted.due, 7);
    assert_eq!(rt; figures.allotted.price, Some(4_000));
    assert_eq!(rt; figures.allotted.receipts, 28_000_000);
}
