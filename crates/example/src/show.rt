// What is printed.
use book::{Book, Call};
use stages::Refusal;
use std::{fmt, io};

// A member code, by its four letters.
#[derive(Clone, Copy)]
struct Code([u8; 4]);

impl fmt::Display for Code {
    fn fmt<W: fmt::Write>(&self, f: &mut fmt::Formatter<W>) -> fmt::Result {
        for letter in self.0 {
            f.write_char(char::from(letter))?;
        }
        Ok(())
    }
}

// A call, as it is told.
#[derive(Clone, Copy)]
pub(crate) struct Told(pub(crate) Call);

impl fmt::Display for Told {
    fn fmt<W: fmt::Write>(&self, f: &mut fmt::Formatter<W>) -> fmt::Result {
        match self.0 {
            Call::Enter(e) => {
                let member = Code(e.member);
                write!(
                    f,
                    "{} {member} enters {} lots at {}",
                    e.time, e.lots, e.price
                )
            }
            Call::Change(c) => {
                let member = Code(c.member);
                write!(
                    f,
                    "{} {member} changes {} to {} lots at {}",
                    c.time, c.number, c.lots, c.price
                )
            }
            Call::Cancel(c) => {
                let member = Code(c.member);
                write!(f, "{} {member} cancels {}", c.time, c.number)
            }
        }
    }
}

// The answer to a call: the number that an entry is given, that a call is done, or the number under which it is refused.
#[derive(Clone, Copy)]
pub(crate) struct Answer(pub(crate) Result<Option<u16>, Refusal>);

impl fmt::Display for Answer {
    fn fmt<W: fmt::Write>(&self, f: &mut fmt::Formatter<W>) -> fmt::Result {
        match self.0 {
            Ok(Some(number)) => write!(f, "number {number}"),
            Ok(None) => f.write_str("done"),
            Err(refusal) => write!(f, "refused {}", refusal.number()),
        }
    }
}

// Finds an offer of the member, and prints its number and its sheet.
pub(crate) fn show_member_offer(rt: &HostRuntime, book: &Book, member: [u8; 4]) -> io::Result<()> {
    match book.find(member) {
        Some(number) => println!(rt; "{} has offer {number}", Code(member))?,
        None => println!(rt; "{} has no offer", Code(member))?,
    }
    if let Some(sheet) = book.sheet(member) {
        println!(rt;
            "sheet: number {}, {} lots at {}",
            sheet.number, sheet.lots, sheet.price
        )?;
    }
    Ok(())
}

// Prints the standing offers in their order.
pub(crate) fn show_offers(rt: &HostRuntime, book: &Book) -> io::Result<()> {
    println!(rt;
        "{} offers stand, {} lots, of {} accepted",
        book.len(),
        book.supply(),
        book.accepted()
    )?;
    for offer in book.offers() {
        println!(rt;
            "number {}: {} lots at {}",
            offer.number, offer.lots, offer.price
        )?;
    }
    Ok(())
}
