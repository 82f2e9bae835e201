use book::{Cancellation, Change, Entry};
use messages::{MessageReader, Tag, UnknownTag};
use stages::{Buyer, Terms};
use std::test::Fail;
use values::{DrawNumbers, Value};

// Answers the number of the first frame's fault, 0 where it has none.
fn code(file: &[u8]) -> u8 {
    let Ok(mut reader) = MessageReader::open(file) else {
        return 20;
    };
    match reader.next() {
        Ok(_) => 0,
        Err(fault) => fault.number(),
    }
}

// Answers the place of the second frame's fault, the place behind it where it has none.
fn second_place(file: &[u8]) -> usize {
    let Ok(mut reader) = MessageReader::open(file) else {
        return 65_536;
    };
    let _first = reader.next();
    match reader.next() {
        Ok(_) => reader.place(),
        Err(fault) => fault.place(),
    }
}

#[test]
fn faults_in_their_order(rt: HostRuntime) {
    assert_eq!(rt; code(&[]), 0);
    assert_eq!(rt; code(&[7, 0, 4, 0, 0, 225, 0]), 0);
    assert_eq!(rt; code(&[9, 0]), 20);
    assert_eq!(rt; code(&[9, 0, 1]), 20);
    assert_eq!(rt; code(&[9, 0, 1, 0]), 21);
    assert_eq!(rt; code(&[7, 0, 3, 0, 0]), 20);
    assert_eq!(rt; code(&[7, 0, 3, 0, 0, 0]), 22);
    assert_eq!(rt; code(&[7, 4, 0, 0, 0, 225, 0]), 20);
}

#[test]
fn places(rt: HostRuntime) {
    assert_eq!(rt; second_place(&[3, 0, 4, 0, 0, 16, 104]), 7);
    assert_eq!(rt; second_place(&[3, 0, 4, 0, 0, 16, 104, 7]), 7);
    assert_eq!(rt;
        second_place(&[3, 0, 4, 0, 0, 16, 104, 8, 0, 4, 0, 3, 1, 254]),
        14
    );
}

#[test]
fn tags(rt: HostRuntime) {
    assert_eq!(rt; Tag::try_from(1), Ok(Tag::Terms));
    assert_eq!(rt; Tag::try_from(8), Ok(Tag::Draw));
    assert_eq!(rt; Tag::try_from(9), Err(UnknownTag(9)));
    assert_eq!(rt; Tag::Close.byte(), 7);
}

#[test]
fn terms(rt: HostRuntime) -> Result<(), Fail> {
    let bytes = Terms {
        kind: b'G',
        method: 1,
        shortfall: b'T',
        unit: 1_000,
        previous_close: 4_000,
        bank_closing: 55_800,
    }
    .to_bytes();
    assert_eq!(rt; bytes[3], 3);
    assert_eq!(rt; bytes[4], 232);
    let Some(terms) = Terms::decode(&bytes) else {
        return Err(Fail::new("terms"));
    };
    assert_eq!(rt; terms.unit, 1_000);
    assert_eq!(rt; terms.bank_closing, 55_800);
    Ok(())
}

#[test]
fn small_values(rt: HostRuntime) -> Result<(), Fail> {
    let buyer = Buyer {
        account: 7,
        lots: 10,
    };
    let Some(buyer) = Buyer::decode(&buyer.to_bytes()) else {
        return Err(Fail::new("buyer"));
    };
    assert_eq!(rt; buyer.lots, 10);
    let draw = DrawNumbers {
        stride: 3,
        shift: 510,
    };
    let Some(draw) = DrawNumbers::decode(&draw.to_bytes()) else {
        return Err(Fail::new("draw"));
    };
    assert_eq!(rt; draw.shift, 510);
    assert_eq!(rt; u32::decode(&57_600u32.to_bytes()), Some(57_600));
    assert_eq!(rt; u32::decode(&[0, 225, 0]), None);
    Ok(())
}

#[test]
fn calls(rt: HostRuntime) -> Result<(), Fail> {
    let entry = Entry {
        time: 54_000,
        member: *b"AAAA",
        account: 20,
        price: 4_000,
        lots: 7,
    };
    let Some(entry) = Entry::decode(&entry.to_bytes()) else {
        return Err(Fail::new("entry"));
    };
    assert_eq!(rt; entry.account, 20);
    let change = Change {
        time: 54_000,
        member: *b"AAAA",
        number: 1,
        price: 4_100,
        lots: 4,
    };
    let Some(change) = Change::decode(&change.to_bytes()) else {
        return Err(Fail::new("change"));
    };
    assert_eq!(rt; change.price, 4_100);
    let cancellation = Cancellation {
        time: 54_000,
        member: *b"AAAA",
        number: 1,
    };
    let Some(cancellation) = Cancellation::decode(&cancellation.to_bytes()) else {
        return Err(Fail::new("cancellation"));
    };
    assert_eq!(rt; cancellation.number, 1);
    Ok(())
}
