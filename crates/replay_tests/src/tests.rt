// Files that run, and files with a fault in each layer.
use book::{Call, Entry};
use frames::WriteFault;
use messages::{Message, write_message};
use replay::run;
use stages::{Buyer, Terms};
use std::alloc::Global;
use std::process::Abort;
use std::test::Fail;
use values::DrawNumbers;

const TERMS: Message = Message::Terms(Terms {
    kind: b'G',
    method: 1,
    shortfall: b'T',
    unit: 1_000,
    previous_close: 4_000,
    bank_closing: 55_800,
});

const BUYER: Message = Message::Buyer(Buyer {
    account: 7,
    lots: 10,
});

const DRAW: Message = Message::Draw(DrawNumbers {
    stride: 3,
    shift: 510,
});

const ENTRY: Message = Message::Call(Call::Enter(Entry {
    time: 54_000,
    member: *b"AAAA",
    account: 20,
    price: 4_000,
    lots: 12,
}));

const TOO_DEAR: Message = Message::Call(Call::Enter(Entry {
    time: 54_000,
    member: *b"AAAA",
    account: 20,
    price: 4_201,
    lots: 1,
}));

// The bytes of the messages.
fn file(heap: Global, messages: &[Message]) -> Result<Vec<u8>, WriteFault> {
    let mut bytes = Vec::new(heap);
    for message in messages {
        write_message(message, &mut bytes)?;
    }
    Ok(bytes)
}

// Checks that the file of the messages comes to the fault.
fn check_fault(
    rt: &(impl Abort + AllocGlobal),
    messages: &[Message],
    number: u8,
    place: usize,
) -> Result<(), Fail> {
    let Ok(bytes) = file(rt.alloc(), messages) else {
        return Err(Fail::new("no memory"));
    };
    match run(bytes.as_slice()) {
        Ok(_) => Err(Fail::new("no fault")),
        Err(fault) => {
            assert_eq!(rt; fault.number(), number);
            assert_eq!(rt; fault.place(), place);
            Ok(())
        }
    }
}

#[test]
fn a_file_that_runs(rt: HostRuntime) -> Result<(), Fail> {
    let messages = [
        TERMS,
        BUYER,
        DRAW,
        Message::Open(4_200),
        ENTRY,
        TOO_DEAR,
        Message::Close(57_600),
    ];
    let Ok(bytes) = file(rt.alloc(), &messages) else {
        return Err(Fail::new("no memory"));
    };
    let Ok(report) = run(bytes.as_slice()) else {
        return Err(Fail::new("a fault"));
    };
    assert_eq!(rt; report.outcome.allotted.due, 10);
    assert_eq!(rt; report.outcome.allotted.price, Some(4_000));
    assert_eq!(rt; report.outcome.accepted, 1);
    assert_eq!(rt; report.outcome.refused, 1);
    assert_eq!(rt; report.fills[0], 10);
    assert_eq!(rt; report.rows[0].payment, 40_000_000);
    Ok(())
}

#[test]
fn faults_of_the_order(rt: HostRuntime) -> Result<(), Fail> {
    check_fault(&rt, &[], 23, 0)?;
    check_fault(&rt, &[BUYER], 23, 0)?;
    check_fault(&rt, &[TERMS, BUYER], 23, 27)?;
    check_fault(&rt, &[TERMS, Message::Open(4_200)], 23, 16)?;
    check_fault(&rt, &[TERMS, BUYER, DRAW, ENTRY], 23, 34)?;
    let nine = [
        TERMS, BUYER, BUYER, BUYER, BUYER, BUYER, BUYER, BUYER, BUYER, BUYER,
    ];
    check_fault(&rt, &nine, 23, 104)
}

#[test]
fn faults_of_the_rules(rt: HostRuntime) -> Result<(), Fail> {
    let even = Message::Draw(DrawNumbers {
        stride: 2,
        shift: 0,
    });
    check_fault(&rt, &[TERMS, even], 2, 16)?;
    check_fault(&rt, &[TERMS, BUYER, even], 19, 27)?;
    check_fault(&rt, &[TERMS, BUYER, DRAW, Message::Open(4_601)], 4, 34)?;
    let early = [
        TERMS,
        BUYER,
        DRAW,
        Message::Open(4_200),
        Message::Close(57_599),
        BUYER,
    ];
    check_fault(&rt, &early, 13, 41)?;
    let behind = [
        TERMS,
        BUYER,
        DRAW,
        Message::Open(4_200),
        Message::Close(57_600),
        BUYER,
    ];
    check_fault(&rt, &behind, 23, 48)
}
