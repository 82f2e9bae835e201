// A file from its first frame to the allotment.
use super::allotting::{Allotment, allot};
use super::data::{Buyer, Call, Terms};
use super::filing::{judge_closing, judge_filing, judge_opening};
use super::frames::{Frame, Tag, first_frame, member, number};
use super::refusal::{Refusal, Stop};
use super::sharing::{judge_stride, stride_ranks};
use super::trading::{Offer, Trading};
use std::alloc::{AllocError, Global};

// Why a file is refused, and the place of the byte up to which it is well.
#[derive(Clone, Copy, PartialEq, Eq, Debug)]
pub(crate) struct Fault {
    pub(crate) refusal: Refusal,
    pub(crate) place: usize,
}

impl From<Fault> for Stop<Fault> {
    fn from(fault: Fault) -> Self {
        Stop::Refused(fault)
    }
}

// What stops a file, whose frame at the place is stopped.
fn stop_at(stop: Stop<Refusal>, place: usize) -> Stop<Fault> {
    match stop {
        Stop::Refused(refusal) => Stop::Refused(Fault { refusal, place }),
        Stop::Memory(error) => Stop::Memory(error),
    }
}

// What comes of a file.
#[derive(Drop)]
pub(crate) struct Report {
    pub(crate) terms: Terms,
    pub(crate) buyers: Vec<Buyer>,
    pub(crate) offers: Vec<Offer>,
    pub(crate) allotment: Allotment,
    pub(crate) accepted: u64,
    pub(crate) refused: u64,
}

// Where a file is: which frames may come next.
#[derive(Clone, Copy, PartialEq, Eq, Debug)]
enum Stage {
    Start,
    Filing,
    Drawn,
    Open,
    Closed,
}

// What was read of a file so far.
#[derive(Drop)]
struct Progress {
    stage: Stage,
    terms: Terms,
    buyers: Vec<Buyer>,
    stride: u32,
    shift: u32,
    trading: Trading,
    accepted: u64,
    refused: u64,
}

impl Progress {
    fn new(heap: Global) -> Progress {
        Progress {
            stage: Stage::Start,
            terms: Terms::default(),
            buyers: Vec::new(heap),
            stride: 0,
            shift: 0,
            trading: Trading::new(heap, Terms::default(), &[], 0, 512),
            accepted: 0,
            refused: 0,
        }
    }

    // Whether a frame of the tag may come now.
    fn expects(&self, tag: Tag) -> bool {
        match (self.stage, tag) {
            (Stage::Start, Tag::Terms) => true,
            (Stage::Filing, Tag::Buyer) => self.buyers.len() < 8,
            (Stage::Filing, Tag::Draw) => true,
            (Stage::Drawn, Tag::Opening) => true,
            (Stage::Open, Tag::Entry | Tag::Change | Tag::Cancellation | Tag::Closing) => true,
            _ => false,
        }
    }

    // Files the tender, and then makes the draw.
    fn file(&mut self, stride: u32, shift: u32) -> Result<(), Refusal> {
        self.stage = Stage::Drawn;
        self.stride = stride;
        self.shift = shift;
        judge_filing(&self.terms, self.buyers.as_slice())?;
        judge_stride(stride, shift)
    }

    // Opens the tender, with a book on 512 records.
    fn open(&mut self, heap: Global, base: u32) -> Result<(), Refusal> {
        self.stage = Stage::Open;
        let buyers = self.buyers.as_slice();
        self.trading = Trading::new(heap, self.terms, buyers, base, 512);
        judge_opening(&self.terms, base)
    }

    // Closes the tender.
    fn close(&mut self, time: u32) -> Result<(), Refusal> {
        self.stage = Stage::Closed;
        judge_closing(self.terms.kind, time)
    }

    // Makes a call, and counts it, whether it is accepted or refused.
    fn trade(&mut self, call: Call) -> Result<(), AllocError> {
        match self.trading.call(call, self.buyers.as_slice())? {
            Ok(()) => self.accepted = self.accepted.saturating_add(1),
            Err(_) => self.refused = self.refused.saturating_add(1),
        }
        Ok(())
    }

    // Does what a frame asks.
    fn follow(&mut self, heap: Global, tag: Tag, value: &[u8]) -> Result<(), Stop<Refusal>> {
        match tag {
            Tag::Terms => {
                self.stage = Stage::Filing;
                self.terms = terms_in(value);
            }
            Tag::Buyer => self.buyers.push(buyer_in(value))?,
            Tag::Draw => self.file(number(value, 0, 2), number(value, 2, 2))?,
            Tag::Opening => self.open(heap, number(value, 0, 4))?,
            Tag::Entry => self.trade(entry_in(value))?,
            Tag::Change => self.trade(change_in(value))?,
            Tag::Cancellation => self.trade(cancellation_in(value))?,
            Tag::Closing => self.close(number(value, 0, 4))?,
        }
        Ok(())
    }

    // Judges a frame by its tag, its length and its order, and then follows it.
    fn take(&mut self, heap: Global, frame: Frame<'_>) -> Result<(), Stop<Refusal>> {
        let tag = Tag::try_from(frame.tag)?;
        if frame.value.len() != tag.width() {
            return Err(Stop::Refused(Refusal::WrongLength));
        }
        if !self.expects(tag) {
            return Err(Stop::Refused(Refusal::Order));
        }
        self.follow(heap, tag, frame.value)
    }

    // Allots, once the tender is closed.
    fn finish(&self, heap: Global) -> Result<Report, AllocError> {
        let ranks = stride_ranks(heap, self.stride, self.shift)?;
        let offers = self.trading.standing(heap)?;
        let buyers = self.buyers.clone()?;
        let allotment = allot(
            heap,
            &self.terms,
            ranks.as_slice(),
            offers.as_slice(),
            buyers.as_slice(),
        )?;
        Ok(Report {
            terms: self.terms,
            buyers,
            offers,
            allotment,
            accepted: self.accepted,
            refused: self.refused,
        })
    }
}

// The buyer in a value.
fn buyer_in(value: &[u8]) -> Buyer {
    Buyer {
        account: number(value, 0, 4),
        lots: number(value, 4, 4),
    }
}

// The terms in a value.
fn terms_in(value: &[u8]) -> Terms {
    let [kind, method, shortfall, _] = member(value, 0);
    Terms {
        kind,
        method,
        shortfall,
        unit: number(value, 3, 2),
        previous_close: number(value, 5, 4),
        bank_closing: number(value, 9, 4),
    }
}

// The entry in a value.
fn entry_in(value: &[u8]) -> Call {
    Call::Enter {
        time: number(value, 0, 4),
        member: member(value, 4),
        account: number(value, 8, 4),
        price: number(value, 12, 4),
        lots: number(value, 16, 4),
    }
}

// The change in a value.
fn change_in(value: &[u8]) -> Call {
    Call::Change {
        time: number(value, 0, 4),
        member: member(value, 4),
        number: number(value, 8, 2),
        price: number(value, 10, 4),
        lots: number(value, 14, 4),
    }
}

// The cancellation in a value.
fn cancellation_in(value: &[u8]) -> Call {
    Call::Cancel {
        time: number(value, 0, 4),
        member: member(value, 4),
        number: number(value, 8, 2),
    }
}

// Reads a file, frame by frame.
fn read(heap: Global, file: &[u8]) -> Result<Progress, Stop<Fault>> {
    let mut progress = Progress::new(heap);
    let mut rest = file;
    while !rest.is_empty() {
        let place = file.len().saturating_sub(rest.len());
        let Some((frame, behind)) = first_frame(rest) else {
            return Err(stop_at(Refusal::CutShort.into(), place));
        };
        progress
            .take(heap, frame)
            .map_err(|stop| stop_at(stop, place))?;
        rest = behind;
    }
    Ok(progress)
}

// Runs a file to its end.
pub(crate) fn run(heap: Global, file: &[u8]) -> Result<Report, Stop<Fault>> {
    if file.len() > 65_536 {
        return Err(Stop::Refused(Fault {
            refusal: Refusal::CutShort,
            place: 65_536,
        }));
    }
    let progress = read(heap, file)?;
    if progress.stage != Stage::Closed {
        return Err(Stop::Refused(Fault {
            refusal: Refusal::Order,
            place: file.len(),
        }));
    }
    Ok(progress.finish(heap)?)
}
