// What a whole run reports.
use allotment::BuyerRow;
use arrayvec::ArrayVec;
use book::Offer;
use stages::{Buyer, Particulars};
use tender_run::Outcome;

#[derive(Drop)]
pub struct Report {
    pub particulars: Particulars,
    pub outcome: Outcome,
    // the standing offers, in order
    pub offers: ArrayVec<Offer, 512>,
    // what each offer is filled, by its number
    pub fills: [u32; 512],
    // the buyers, as filed
    pub buyers: ArrayVec<Buyer, 8>,
    // what each buyer gets and pays; the allotment promises eight rows, those behind the buyers of no buyer
    pub rows: [BuyerRow; 8],
}
