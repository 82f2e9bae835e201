// The calls that are made.
use book::{Call, Cancellation, Change, Entry};

// Makes an entry.
fn enter(time: u32, member: [u8; 4], account: u32, price: u32, lots: u32) -> Call {
    Call::Enter(Entry {
        time,
        member,
        account,
        price,
        lots,
    })
}

// Makes a change.
fn change(time: u32, member: [u8; 4], number: u16, price: u32, lots: u32) -> Call {
    Call::Change(Change {
        time,
        member,
        number,
        price,
        lots,
    })
}

// Makes a cancellation.
fn cancel(time: u32, member: [u8; 4], number: u16) -> Call {
    Call::Cancel(Cancellation {
        time,
        member,
        number,
    })
}

// Answers the calls, those that will be refused among them.
pub(crate) fn calls() -> [Call; 13] {
    [
        enter(53_999, *b"AAAA", 20, 4_000, 7),
        enter(54_000, *b"AAAA", 20, 4_000, 7),
        enter(54_010, *b"BBBB", 21, 4_100, 4),
        enter(54_020, *b"BBBB", 21, 4_100, 1),
        enter(54_019, *b"CCCC", 22, 4_100, 1),
        enter(54_030, *b"CCCC", 22, 4_201, 1),
        enter(54_040, *b"CCCC", 22, 4_050, 0),
        enter(54_050, *b"CCCC", 7, 4_050, 2),
        enter(54_060, *b"CCCC", 22, 4_100, 2),
        change(54_070, *b"BBBB", 1, 4_100, 5),
        change(54_080, *b"AAAA", 1, 4_000, 5),
        cancel(54_090, *b"BBBB", 9),
        cancel(54_100, *b"BBBB", 2),
    ]
}

// Answers the entries of a general tender of which the last is refused: three offers tie at the marginal price.
pub(crate) fn general_calls() -> [Call; 6] {
    [
        enter(54_000, *b"AAAA", 20, 4_000, 7),
        enter(54_000, *b"AAAA", 20, 4_100, 4),
        enter(54_000, *b"AAAA", 20, 4_100, 1),
        enter(54_000, *b"AAAA", 20, 4_100, 1),
        enter(54_000, *b"AAAA", 20, 4_150, 5),
        enter(54_000, *b"AAAA", 20, 4_201, 1),
    ]
}

// Answers the calls of a financing tender that ends in a shortage.
pub(crate) fn financing_calls() -> [Call; 5] {
    [
        enter(52_200, *b"AAAA", 20, 4_300, 4),
        enter(52_300, *b"BBBB", 21, 4_310, 2),
        enter(52_400, *b"CCCC", 22, 4_310, 3),
        change(52_500, *b"CCCC", 2, 4_310, 1),
        enter(54_000, *b"BBBB", 21, 4_300, 1),
    ]
}
