// Book A: a general tender of one buyer, account 7 with 10 lots, at a base price of 4,200.
use book::{Book, Cancellation, Change, Entry, Offer};
use stages::{Buyer, Open, Refusal, Terms, file};
use std::test::Fail;

const TERMS: Terms = Terms {
    kind: b'G',
    method: 1,
    shortfall: b'T',
    unit: 1_000,
    previous_close: 4_000,
    bank_closing: 55_800,
};

const BUYER: Buyer = Buyer {
    account: 7,
    lots: 10,
};

const ENTRY: Entry = Entry {
    time: 54_010,
    member: *b"AAAA",
    account: 20,
    price: 4_000,
    lots: 7,
};

const CHANGE: Change = Change {
    time: 54_010,
    member: *b"AAAA",
    number: 0,
    price: 4_100,
    lots: 6,
};

// Answers the number of an answer, 0 where the call is accepted.
fn code<T: Drop>(answer: Result<T, Refusal>) -> u8 {
    match answer {
        Ok(_) => 0,
        Err(refusal) => refusal.number(),
    }
}

// Opens book A's tender.
fn opened() -> Result<Open, Refusal> {
    let filed = file(&TERMS, &[BUYER])?;
    filed.open(4_200).map_err(|refused| refused.0)
}

// Answers the number of opening book A's tender at the base price.
fn open_code(base: u32) -> Result<u8, Refusal> {
    let filed = file(&TERMS, &[BUYER])?;
    Ok(code(filed.open(base).map_err(|refused| refused.0)))
}

// Answers the number of closing book A's tender at the time.
fn close_code(time: u32) -> Result<u8, Refusal> {
    let tender = opened()?;
    Ok(code(tender.close(time).map_err(|refused| refused.0)))
}

#[test]
fn filing(rt: HostRuntime) {
    assert_eq!(rt; code(file(&Terms { unit: 0, ..TERMS }, &[BUYER])), 1);
    assert_eq!(rt;
        code(file(
            &Terms {
                kind: b'F',
                ..TERMS
            },
            &[BUYER],
        )),
        1
    );
    assert_eq!(rt; code(file(&TERMS, &[BUYER; 2])), 2);
    assert_eq!(rt; code(file(&TERMS, &[Buyer { lots: 0, ..BUYER }])), 3);
}

#[test]
fn opening_and_closing(rt: HostRuntime) -> Result<(), Fail> {
    assert_eq!(rt; open_code(3_399)?, 4);
    assert_eq!(rt; open_code(3_400)?, 0);
    assert_eq!(rt; open_code(4_600)?, 0);
    assert_eq!(rt; open_code(4_601)?, 4);
    assert_eq!(rt; close_code(57_599)?, 13);
    assert_eq!(rt; close_code(57_600)?, 0);
    assert_eq!(rt; close_code(86_399)?, 0);
    assert_eq!(rt; close_code(86_400)?, 13);
    Ok(())
}

#[test]
fn entries(rt: HostRuntime) -> Result<(), Fail> {
    let tender = opened()?;
    let mut records = [Offer::default(); 512];
    let mut book = Book::new(&mut records);
    assert_eq!(rt;
        code(book.enter(
            &tender,
            Entry {
                time: 53_999,
                ..ENTRY
            },
            &[BUYER],
        )),
        5
    );
    assert_eq!(rt; code(book.enter(&tender, ENTRY, &[BUYER])), 0);
    assert_eq!(rt;
        code(book.enter(
            &tender,
            Entry {
                time: 54_009,
                ..ENTRY
            },
            &[BUYER],
        )),
        6
    );
    assert_eq!(rt;
        code(book.enter(
            &tender,
            Entry {
                price: 4_201,
                ..ENTRY
            },
            &[BUYER],
        )),
        7
    );
    assert_eq!(rt;
        code(book.enter(&tender, Entry { lots: 0, ..ENTRY }, &[BUYER])),
        8
    );
    assert_eq!(rt;
        code(book.enter(
            &tender,
            Entry {
                account: 7,
                ..ENTRY
            },
            &[BUYER],
        )),
        9
    );
    assert_eq!(rt;
        code(book.enter(&tender, ENTRY, &[Buyer { lots: 9, ..BUYER }])),
        15
    );
    Ok(())
}

#[test]
fn the_513th_entry(rt: HostRuntime) -> Result<(), Fail> {
    let tender = opened()?;
    let mut records = [Offer::default(); 512];
    let mut book = Book::new(&mut records);
    for _ in 0..512 {
        book.enter(&tender, ENTRY, &[BUYER])?;
    }
    assert_eq!(rt; code(book.enter(&tender, ENTRY, &[BUYER])), 10);
    Ok(())
}

#[test]
fn changes_and_cancellations(rt: HostRuntime) -> Result<(), Fail> {
    let tender = opened()?;
    let mut records = [Offer::default(); 512];
    let mut book = Book::new(&mut records);
    assert_eq!(rt; code(book.change(&tender, CHANGE)), 11);
    book.enter(&tender, ENTRY, &[BUYER])?;
    assert_eq!(rt;
        code(book.change(
            &tender,
            Change {
                member: *b"AAAB",
                ..CHANGE
            },
        )),
        12
    );
    book.change(&tender, CHANGE)?;
    let Change {
        time,
        member,
        number,
        ..
    } = CHANGE;
    book.cancel(
        &tender,
        Cancellation {
            time,
            member,
            number,
        },
    )?;
    assert_eq!(rt; book.len(), 0);
    Ok(())
}

#[test]
fn other_than_512_records(rt: HostRuntime) -> Result<(), Fail> {
    let tender = opened()?;
    let mut records = [Offer::default(); 511];
    assert_eq!(rt; code(Book::check(&records)), 14);
    let mut book = Book::new(&mut records);
    assert_eq!(rt; code(book.enter(&tender, ENTRY, &[BUYER])), 14);
    Ok(())
}
