// The file of a tender.
use super::plan::Plan;
use reference::Call;
use std::alloc::{AllocError, Global};

// What a frame tells, by its tag.
#[derive(Clone, Copy, PartialEq, Eq, Debug)]
enum Tag {
    Terms = 1,
    Buyer = 2,
    Opening = 3,
    Entry = 4,
    Change = 5,
    Cancellation = 6,
    Closing = 7,
    Draw = 8,
}

// Writes a number in four bytes, the high byte first.
fn put_four(file: &mut Vec<u8>, number: u32) -> Result<(), AllocError> {
    file.extend_from_slice(&number.to_be_bytes())
}

// Writes a number in two bytes.
fn put_two(file: &mut Vec<u8>, number: u32) -> Result<(), AllocError> {
    file.extend_from_slice(&((number & 0xffff) as u16).to_be_bytes())
}

// Writes what stands before a value: tag and length.
fn put_head(file: &mut Vec<u8>, tag: Tag, length: u32) -> Result<(), AllocError> {
    file.push(tag as u8)?;
    put_two(file, length)
}

// Writes the terms.
fn put_terms(file: &mut Vec<u8>, plan: &Plan) -> Result<(), AllocError> {
    put_head(file, Tag::Terms, 13)?;
    file.push(plan.terms.kind)?;
    file.push(plan.terms.method)?;
    file.push(plan.terms.shortfall)?;
    put_two(file, plan.terms.unit)?;
    put_four(file, plan.terms.previous_close)?;
    put_four(file, plan.terms.bank_closing)
}

// Writes what stands before a call, and what each begins with: when it is made, and by whom.
fn put_caller(
    file: &mut Vec<u8>,
    tag: Tag,
    length: u32,
    time: u32,
    member: [u8; 4],
) -> Result<(), AllocError> {
    put_head(file, tag, length)?;
    put_four(file, time)?;
    file.extend_from_slice(&member)
}

// Writes a call.
fn put_call(file: &mut Vec<u8>, call: Call) -> Result<(), AllocError> {
    match call {
        Call::Enter {
            time,
            member,
            account,
            price,
            lots,
        } => {
            put_caller(file, Tag::Entry, 20, time, member)?;
            put_four(file, account)?;
            put_four(file, price)?;
            put_four(file, lots)
        }
        Call::Change {
            time,
            member,
            number,
            price,
            lots,
        } => {
            put_caller(file, Tag::Change, 18, time, member)?;
            put_two(file, number)?;
            put_four(file, price)?;
            put_four(file, lots)
        }
        Call::Cancel {
            time,
            member,
            number,
        } => {
            put_caller(file, Tag::Cancellation, 10, time, member)?;
            put_two(file, number)
        }
    }
}

// The bytes of the whole tender.
pub(crate) fn encode(heap: Global, plan: &Plan) -> Result<Vec<u8>, AllocError> {
    let mut file = Vec::new(heap);
    put_terms(&mut file, plan)?;
    for buyer in plan.buyers.iter() {
        put_head(&mut file, Tag::Buyer, 8)?;
        put_four(&mut file, buyer.account)?;
        put_four(&mut file, buyer.lots)?;
    }
    put_head(&mut file, Tag::Draw, 4)?;
    put_two(&mut file, plan.stride)?;
    put_two(&mut file, plan.shift)?;
    put_head(&mut file, Tag::Opening, 4)?;
    put_four(&mut file, plan.base)?;
    for call in plan.calls.iter() {
        put_call(&mut file, *call)?;
    }
    put_head(&mut file, Tag::Closing, 4)?;
    put_four(&mut file, plan.closing)?;
    Ok(file)
}
