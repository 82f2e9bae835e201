// The messages of a tender file, read in their order.
ghost use Rattle.std.specs.Prelude.{◌≡◌, ◌≤◌, [], length};
ghost use Rattle.messages.specs.Reading.{file_of, next_place};
ghost use Rattle.replay.specs.Reading.{BuyersRead, CallsRead, EndRead, MessageRead, TermsRead, BaseRead};

use arrayvec::ArrayVec;
use book::Call;
use faults::OrderFault;
use messages::{Message, MessageReader, Placed};
use stages::{Buyer, Terms};
use values::DrawNumbers;

// Reads the next message. The file may not end here.
fn next<'a>(reader: &mut MessageReader<'a>) -> Result<Placed, OrderFault>
    ensures read { MessageRead (file_of reader.old) (next_place reader.old) result (next_place reader.new) }
    ensures file { file_of reader.new ≡ file_of reader.old }
{
    let found = reader.next()?;
    found.ok_or(OrderFault::Ended(reader.place()))
}

// Reads the terms. It stays apart from `read_base`: with a closure for the wanted message neither would be shorter.
pub(crate) fn read_terms<'a>(reader: &mut MessageReader<'a>) -> Result<Terms, OrderFault>
    ensures read { TermsRead (file_of reader.old) (next_place reader.old) result (next_place reader.new) }
    ensures file { file_of reader.new ≡ file_of reader.old }
{
    let placed = next(reader)?;
    let Message::Terms(terms) = placed.message else {
        return Err(OrderFault::OutOfOrder(placed.place));
    };
    Ok(terms)
}

// What stands before the opening beside the terms.
#[derive(Drop)]
pub struct Heading {
    pub buyers: ArrayVec<Buyer, 8>,
    pub draw: DrawNumbers,
    // where the draw stands
    pub place: usize,
}

// Reads up to eight buyers, and the draw behind them. It stays apart from `read_calls`: a ninth buyer is refused, where a file has no
// room for a call too many. Neither loop is a chain, since a message out of order ends it by the fault of its place.
pub(crate) fn read_buyers<'a>(reader: &mut MessageReader<'a>) -> Result<Heading, OrderFault>
    ensures read { BuyersRead (file_of reader.old) (next_place reader.old) result (next_place reader.new) }
    ensures file { file_of reader.new ≡ file_of reader.old }
{
    let mut buyers = ArrayVec::new();
    loop {
        let Placed { place, message } = next(reader)?;
        match message {
            Message::Buyer(buyer) => {
                let Ok(()) = buyers.try_push(buyer) else {
                    return Err(OrderFault::OutOfOrder(place));
                };
            }
            Message::Draw(draw) => {
                return Ok(Heading {
                    buyers,
                    draw,
                    place,
                });
            }
            _ => return Err(OrderFault::OutOfOrder(place)),
        }
    }
}

// A base price, and where it stands.
#[derive(Clone, Copy)]
pub struct Opening {
    pub base: u32,
    pub place: usize,
}

// Reads the base price.
pub(crate) fn read_base<'a>(reader: &mut MessageReader<'a>) -> Result<Opening, OrderFault>
    ensures read { BaseRead (file_of reader.old) (next_place reader.old) result (next_place reader.new) }
    ensures file { file_of reader.new ≡ file_of reader.old }
{
    let Placed { place, message } = next(reader)?;
    let Message::Open(base) = message else {
        return Err(OrderFault::OutOfOrder(place));
    };
    Ok(Opening { base, place })
}

// How many calls a file has room for: the shortest call has 13 of its 65,536 bytes.
pub(crate) const CALLS: usize = 5_041;

// What stands behind the opening beside the calls.
#[derive(Clone, Copy)]
pub struct Ending {
    // how many calls
    pub count: usize,
    pub closing: u32,
    // where the closing stands
    pub place: usize,
}

// Reads the calls into the places lent, and the closing behind them. The places are an array and no `ArrayVec`: making an empty one of
// this room takes the stack for it twice, and copies it.
pub(crate) fn read_calls<'a>(
    reader: &mut MessageReader<'a>,
    calls: &mut [Call],
) -> Result<Ending, OrderFault>
    requires room { length calls.old ≡ 5041 }
    requires short { length (file_of reader.old) ≤ 65536 }
    ensures read { CallsRead (file_of reader.old) (next_place reader.old) calls.new result (next_place reader.new) }
    ensures file { file_of reader.new ≡ file_of reader.old }
    ensures room { length calls.new ≡ 5041 }
{
    let mut count = 0;
    loop {
        let Placed { place, message } = next(reader)?;
        match message {
            Message::Call(call) => {
                calls[count] = call;
                count += 1;
            }
            Message::Close(closing) => {
                return Ok(Ending {
                    count,
                    closing,
                    place,
                });
            }
            _ => return Err(OrderFault::OutOfOrder(place)),
        }
    }
}

// Reads that nothing stands behind the closing.
pub(crate) fn read_end<'a>(reader: &mut MessageReader<'a>) -> Result<(), OrderFault>
    ensures read { EndRead (file_of reader.old) (next_place reader.old) result }
{
    match reader.next()? {
        Some(placed) => Err(OrderFault::OutOfOrder(placed.place)),
        None => Ok(()),
    }
}
