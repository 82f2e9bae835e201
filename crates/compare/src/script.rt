// Cases in words, a line for each command: first those that make a tender, then those that compare it.
use super::plan::Plan;
use reference::{Buyer, Call, Terms};
use std::alloc::{AllocError, Global};

// A word as a number: a decimal one, or the bytes of its letters.
fn value(word: &str) -> u32 {
    word.parse().unwrap_or_else(|_| {
        word.bytes().fold(0, |letters: u32, letter| {
            letters.wrapping_mul(256).wrapping_add(u32::from(letter))
        })
    })
}

// A line: its first word, what stands behind it, and the words there as numbers.
#[derive(Drop)]
pub(crate) struct Command<'a> {
    pub(crate) word: &'a str,
    pub(crate) rest: &'a str,
    fields: Vec<u32>,
}

impl<'a> Command<'a> {
    pub(crate) fn new(
        heap: Global,
        word: &'a str,
        rest: &'a str,
    ) -> Result<Command<'a>, AllocError> {
        let mut fields = Vec::new(heap);
        for word in rest.split(' ') {
            fields.push(value(word))?;
        }
        Ok(Command { word, rest, fields })
    }

    // The field at an index; 0 where there is none.
    pub(crate) fn field(&self, i: usize) -> u32 {
        self.fields.get(i).copied().unwrap_or(0)
    }

    // A field that is one letter.
    fn letter(&self, i: usize) -> u8 {
        (self.field(i) % 256) as u8
    }

    // Its call, if it is one.
    fn call(&self) -> Option<Call> {
        let time = self.field(0);
        let member = self.field(1).to_be_bytes();
        match self.word {
            "entry" => Some(Call::Enter {
                time,
                member,
                account: self.field(2),
                price: self.field(3),
                lots: self.field(4),
            }),
            "change" => Some(Call::Change {
                time,
                member,
                number: self.field(2),
                price: self.field(3),
                lots: self.field(4),
            }),
            "cancel" => Some(Call::Cancel {
                time,
                member,
                number: self.field(2),
            }),
            _ => None,
        }
    }
}

// Does what a line says of the tender as a whole: begins another, or sets terms, draw, base price, closing time or the sizes of
// places.
fn set(plan: &mut Plan, heap: Global, command: &Command<'_>) -> bool {
    let first = command.field(0);
    match command.word {
        "general" => *plan = Plan::general(heap),
        "financing" => *plan = Plan::financing(heap),
        "terms" => {
            plan.terms = Terms {
                kind: command.letter(0),
                method: command.letter(1),
                shortfall: command.letter(2),
                unit: command.field(3),
                previous_close: command.field(4),
                bank_closing: command.field(5),
            }
        }
        "draw" => {
            plan.stride = first;
            plan.shift = command.field(1);
        }
        "open" => plan.base = first,
        "close" => plan.closing = first,
        "records" => plan.places.records = first as usize,
        "fills" => plan.places.fills = first as usize,
        "rows" => plan.places.rows = first as usize,
        "others" => plan.hands_others = true,
        _ => return false,
    }
    true
}

// Adds what a line says: a buyer, or one that may be handed over in place of those filed.
fn add_buyer(plan: &mut Plan, command: &Command<'_>) -> Result<bool, AllocError> {
    let buyer = Buyer {
        account: command.field(0),
        lots: command.field(1),
    };
    match command.word {
        "buyer" => plan.buyers.push(buyer)?,
        "other" => plan.others.push(buyer)?,
        _ => return Ok(false),
    }
    Ok(true)
}

// Adds the call of a line, as often as its sixth field says, and once where there is none.
fn add_call(plan: &mut Plan, command: &Command<'_>) -> Result<bool, AllocError> {
    let Some(call) = command.call() else {
        return Ok(false);
    };
    for _ in 0..command.field(5).max(1) {
        plan.calls.push(call)?;
    }
    Ok(true)
}

// Makes of the tender what the line says, and answers whether the line is such a one.
pub(crate) fn build(
    heap: Global,
    plan: &mut Plan,
    command: &Command<'_>,
) -> Result<bool, AllocError> {
    Ok(set(plan, heap, command) || add_buyer(plan, command)? || add_call(plan, command)?)
}
