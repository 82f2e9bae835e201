// What is printed of a file.
ghost use Rattle.std.specs.Prelude.{◌≡◌, [], ◌∷◌, ◌++◌, IfOk, string_bytes};
ghost use Rattle.reference.specs.Text.{Ended};

use super::allotting::Row;
use super::data::Buyer;
use super::refusal::{Refusal, Stop};
use super::running::{Fault, Report, run};
use super::trading::Offer;
use std::alloc::{AllocError, Global};
use std::fmt;

// The line that tells a fault.
impl fmt::Display for Fault {
    fn fmt<W: fmt::Write>(&self, f: &mut fmt::Formatter<W>) -> fmt::Result {
        let layer = match self.refusal {
            Refusal::CutShort | Refusal::UnknownTag | Refusal::WrongLength => "frame",
            Refusal::Order => "order",
            _ => "rule",
        };
        write!(
            f,
            "fault {layer} {} at {}",
            self.refusal.number(),
            self.place
        )
    }
}

// A marginal price, or a dash where there is none.
#[derive(Clone, Copy)]
struct Price(Option<u32>);

impl fmt::Display for Price {
    fn fmt<W: fmt::Write>(&self, f: &mut fmt::Formatter<W>) -> fmt::Result {
        match self.0 {
            Some(price) => write!(f, "{price}"),
            None => f.write_str("-"),
        }
    }
}

// The line that tells what is allotted.
impl fmt::Display for Report {
    fn fmt<W: fmt::Write>(&self, f: &mut fmt::Formatter<W>) -> fmt::Result {
        let terms = self.terms;
        let (kind, method, shortfall) = (terms.kind as char, terms.method, terms.shortfall as char);
        let due = self.allotment.due;
        let price = Price(self.allotment.price);
        let total = self.allotment.receipts;
        let fee = self.allotment.fee;
        let accepted = self.accepted;
        let refused = self.refused;
        write!(
            f,
            "{kind} {method} {shortfall} due {due} price {price} total {total} fee {fee} accepted {accepted} refused {refused}"
        )
    }
}

// A member code: its four characters, or hexadecimal digits where one of them does not print.
#[derive(Clone, Copy)]
struct Member([u8; 4]);

impl fmt::Display for Member {
    fn fmt<W: fmt::Write>(&self, f: &mut fmt::Formatter<W>) -> fmt::Result {
        let [a, b, c, d] = self.0;
        if self.0.iter().all(|letter| (33..=126).contains(letter)) {
            write!(f, "{}{}{}{}", a as char, b as char, c as char, d as char)
        } else {
            write!(f, "#{a:02x}{b:02x}{c:02x}{d:02x}")
        }
    }
}

// The line of a standing offer, and of what it is filled.
#[derive(Clone, Copy)]
struct OfferLine<'a>(&'a Offer, u32);

impl fmt::Display for OfferLine<'_> {
    fn fmt<W: fmt::Write>(&self, f: &mut fmt::Formatter<W>) -> fmt::Result {
        let OfferLine(offer, filled) = self;
        let number = offer.number;
        let member = Member(offer.member);
        let account = offer.account;
        let price = offer.price;
        let lots = offer.lots;
        write!(
            f,
            "offer {number} {member} account {account} price {price} lots {lots} filled {filled}"
        )
    }
}

// The line of a buyer, and of its row.
#[derive(Clone, Copy)]
struct BuyerLine<'a>(&'a Buyer, &'a Row);

impl fmt::Display for BuyerLine<'_> {
    fn fmt<W: fmt::Write>(&self, f: &mut fmt::Formatter<W>) -> fmt::Result {
        let BuyerLine(buyer, row) = self;
        let account = buyer.account;
        let lots = buyer.lots;
        let gets = row.lots;
        let pays = row.payment;
        let mark = if row.billed { " billed" } else { "" };
        write!(
            f,
            "buyer {account} lots {lots} gets {gets} pays {pays}{mark}"
        )
    }
}

// The line of a report, and behind it one for each standing offer and one for each buyer.
fn all_lines(heap: Global, report: &Report) -> Result<String, AllocError> {
    let mut text = format!(in heap; "{report}")?;
    for (offer, filled) in report.offers.iter().zip(report.allotment.fills.iter()) {
        write!(text, "\n{}", OfferLine(offer, *filled))?;
    }
    for (buyer, row) in report.buyers.iter().zip(report.allotment.rows.iter()) {
        write!(text, "\n{}", BuyerLine(buyer, row))?;
    }
    Ok(text)
}

// The text with the byte that ends its last line.
fn ended(mut text: String) -> Result<String, AllocError>
    ensures { IfOk result (λ s. string_bytes s ≡ string_bytes text ++ 10 ∷ []) }
{
    text.push('\n')?;
    Ok(text)
}

// The lines that are made of a file's report, or the one of its fault.
fn printed<F: Fn(Global, &Report) -> Result<String, AllocError>>(
    heap: Global,
    file: &[u8],
    lines: F,
) -> Result<String, AllocError>
    requires { F.IsAlwaysCallable lines }
    ensures { IfOk result (λ s. Ended (string_bytes s)) }
{
    let text = match run(heap, file) {
        Ok(report) => lines(heap, &report)?,
        Err(Stop::Refused(fault)) => format!(in heap; "{fault}")?,
        Err(Stop::Memory(error)) => return Err(error),
    };
    ended(text)
}

// The one line that comes of a file.
pub fn tender(heap: Global, file: &[u8]) -> Result<String, AllocError>
    ensures { IfOk result (λ s. Ended (string_bytes s)) }
{
    printed(heap, file, |heap, report| format!(in heap; "{report}"))
}

// All lines that come of a file: that line, one for each standing offer, and one for each buyer.
pub fn statement(heap: Global, file: &[u8]) -> Result<String, AllocError>
    ensures { IfOk result (λ s. Ended (string_bytes s)) }
{
    printed(heap, file, all_lines)
}
