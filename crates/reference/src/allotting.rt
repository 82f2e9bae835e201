// The allotment of a closed tender.
ghost use Rattle.std.specs.Prelude.{◌≡◌, ◌/◌, ◌≤◌, IfOk, IfErr};
ghost use Rattle.reference.specs.Register.{number_of};

use super::data::{Buyer, Claim, Kind, Method, Places, Shortfall, Terms};
use super::filing::demand;
use super::lists::total;
use super::refusal::Refusal;
use super::sharing::{Rule, shares};
use super::trading::{Filed, Offer};
use std::alloc::{AllocError, Global};
use std::cmp::Ordering;

// What a buyer gets and pays.
#[derive(Clone, Copy, PartialEq, Eq, Debug, Default)]
pub struct Row {
    pub lots: u32,
    pub payment: u64,
    pub billed: bool,
}

#[derive(Drop)]
pub struct Allotment {
    pub due: u64,
    pub price: Option<u32>,
    pub receipts: u64,
    pub fee: u64,
    // in the order of the offers
    pub fills: Vec<u32>,
    // a row for each buyer
    pub rows: Vec<Row>,
}

// Judges the places and the buyers handed over to an allotment.
pub fn judge_allotment(filed: &[Buyer], handed: &[Buyer], places: Places) -> Result<(), Refusal>
    ensures { IfErr result (λ refusal. number_of refusal ≤ 15) }
{
    let whole = Places {
        records: 512,
        fills: 512,
        rows: 8,
    };
    if places != whole {
        return Err(Refusal::Place);
    }
    if !Filed::new(filed).admits(handed) {
        return Err(Refusal::OtherBuyers);
    }
    Ok(())
}

// What is offered, in the order of the book, and what is due of it.
#[derive(Clone, Copy)]
struct Market<'a> {
    offers: &'a [Offer],
    due: u64,
}

// The lots of the offers at or below the price.
fn supply_up_to(offers: &[Offer], price: u32) -> u64 {
    total(
        offers,
        |offer| if offer.price <= price { offer.lots } else { 0 },
    )
}

// What is due of the demand.
fn due(terms: &Terms, offers: &[Offer], demand: u64) -> u64 {
    let supply = supply_up_to(offers, u32::MAX);
    if supply >= demand {
        return demand;
    }
    match terms.shortfall() {
        Shortfall::Taken => supply,
        Shortfall::Void => 0,
    }
}

impl Market<'_> {
    // The lowest offered price up to which the offers come to what is due.
    fn marginal_price(&self) -> Option<u32> {
        if self.due == 0 {
            return None;
        }
        self.offers
            .iter()
            .map(|offer| offer.price)
            .filter(|price| supply_up_to(self.offers, *price) >= self.due)
            .min()
    }

    // What the offers at the price get, in their order, once those below it are filled.
    fn tied_shares(
        &self,
        heap: Global,
        rule: Rule,
        ranks: &[u16],
        price: u32,
    ) -> Result<Vec<u32>, AllocError> {
        let mut claims = Vec::new(heap);
        for offer in self.offers.iter().filter(|offer| offer.price == price) {
            claims.push(Claim {
                number: u32::try_from(offer.number).unwrap_or(0),
                lots: offer.lots,
            })?;
        }
        let below = total(
            self.offers,
            |offer| if offer.price < price { offer.lots } else { 0 },
        );
        let left = u32::try_from(self.due.saturating_sub(below)).unwrap_or(0);
        shares(heap, rule, ranks, claims.as_slice(), left)
    }

    // What each offer gets, in their order: those below the price all, those at it their shares, those above it nothing.
    fn fills_at(&self, heap: Global, tied: &[u32], price: u32) -> Result<Vec<u32>, AllocError> {
        let mut fills = Vec::new(heap);
        let mut tied = tied.iter();
        for offer in self.offers {
            fills.push(match offer.price.cmp(&price) {
                Ordering::Less => offer.lots,
                Ordering::Equal => tied.next().copied().unwrap_or(0),
                Ordering::Greater => 0,
            })?;
        }
        Ok(fills)
    }

    // What each offer gets, in their order; nothing without a price.
    fn fills(
        &self,
        heap: Global,
        rule: Rule,
        ranks: &[u16],
        price: Option<u32>,
    ) -> Result<Vec<u32>, AllocError> {
        let Some(price) = price else {
            return vec![in heap; 0; self.offers.len()];
        };
        let tied = self.tied_shares(heap, rule, ranks, price)?;
        self.fills_at(heap, tied.as_slice(), price)
    }
}

// What the sellers receive, lot by lot: each at the price of all, where there is one, or at its own.
fn receipts(unit: u32, offers: &[Offer], fills: &[u32], price: Option<u32>) -> u64 {
    let mut receipts = 0u64;
    for (offer, fill) in offers.iter().zip(fills) {
        let lot = u64::from(unit) * u64::from(price.unwrap_or(offer.price));
        for _ in 0..*fill {
            receipts = receipts.saturating_add(lot);
        }
    }
    receipts
}

// The part of the receipts that so many of the lots due pay, its fraction dropped.
fn part(receipts: u64, lots: u64, due: u64) -> u64 {
    if due == 0 {
        return 0;
    }
    let part = u128::from(receipts) * u128::from(lots) / u128::from(due);
    u64::try_from(part).unwrap_or(0)
}

// What each buyer gets of what is due.
fn buyers_lots(
    heap: Global,
    ranks: &[u16],
    buyers: &[Buyer],
    due: u64,
) -> Result<Vec<u32>, AllocError> {
    let mut claims = Vec::new(heap);
    for (i, buyer) in buyers.iter().enumerate() {
        claims.push(Claim {
            number: u32::try_from(i).unwrap_or(0),
            lots: buyer.lots,
        })?;
    }
    let amount = u32::try_from(due).unwrap_or(0);
    shares(heap, Rule::Remainder, ranks, claims.as_slice(), amount)
}

// A row for each buyer: with S the lots of a row and all above it, it pays what S pay less what those above pay.
fn rows(
    heap: Global,
    billed: bool,
    lots: &[u32],
    due: u64,
    receipts: u64,
) -> Result<Vec<Row>, AllocError> {
    let mut rows = Vec::new(heap);
    let mut above = 0u64;
    for &lots in lots {
        let with = above.saturating_add(u64::from(lots));
        let payment = part(receipts, with, due).saturating_sub(part(receipts, above, due));
        rows.push(Row {
            lots,
            payment,
            billed,
        })?;
        above = with;
    }
    Ok(rows)
}

// Allots the offers, which are in the order of the book, to the buyers.
pub fn allot(
    heap: Global,
    terms: &Terms,
    ranks: &[u16],
    offers: &[Offer],
    buyers: &[Buyer],
) -> Result<Allotment, AllocError>
    ensures { IfOk result (λ a. a.fee ≡ a.receipts / 2000) }
{
    let due = due(terms, offers, demand(buyers));
    let market = Market { offers, due };
    let price = market.marginal_price();
    let (rule, billed) = match terms.kind() {
        Kind::General => (Rule::Proportional, true),
        Kind::Financing => (Rule::Time, false),
    };
    let fills = market.fills(heap, rule, ranks, price)?;
    let paid_by_all = match terms.method() {
        Method::OnePrice => price,
        Method::AsOffered => None,
    };
    let receipts = receipts(terms.unit, offers, fills.as_slice(), paid_by_all);
    let lots = buyers_lots(heap, ranks, buyers, due)?;
    let rows = rows(heap, billed, lots.as_slice(), due, receipts)?;
    Ok(Allotment {
        due,
        price,
        receipts,
        fee: receipts / 2_000,
        fills,
        rows,
    })
}
