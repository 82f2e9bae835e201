// Why something is refused, and what else stops it.
ghost use Rattle.std.specs.Prelude.{◌≡◌};
ghost use Rattle.reference.specs.Register.{number_of};

use std::alloc::{AllocError, AllocFailed};

// Why something is refused.
#[derive(Clone, Copy, PartialEq, Eq, Debug)]
pub enum Refusal {
    // filing: a term that is unknown or outside its range, or terms that do not go together
    Term,
    // filing: the wrong number of buyers, or two of one account
    Accounts,
    // filing: a buyer's lots, or those of all, are outside their range
    Demand,
    // opening: the base price is outside its span
    BasePrice,
    // a call: the time is outside the window
    OutsideWindow,
    // a call: the time is before that of the latest accepted one
    BeforeLatest,
    // entry, change: the price is 0 or above the base price
    Price,
    // entry, change: the lots are 0 or too many
    Lots,
    // entry: the account is a buyer's
    BuyerAccount,
    // entry: 512 were accepted already
    Full,
    // change, cancellation: no such offer stands
    NoOffer,
    // change, cancellation: the offer is another member's
    OtherMember,
    // closing: the window is not over, or the day is
    Closing,
    // a place of another size
    Place,
    // the buyers handed over are not those filed
    OtherBuyers,
    // sharing: claims outside their limits, a number twice, or a place of another length
    Claims,
    // a recorded draw: not 512 ranks
    RankCount,
    // a recorded draw: two equal ranks
    EqualRanks,
    // a stride draw: an even stride, or a stride or shift above 511
    Stride,
    // a file: a frame that is cut short, or too many bytes
    CutShort,
    // a file: a frame of an unknown tag
    UnknownTag,
    // a file: a frame of another length than its tag has
    WrongLength,
    // a file: a frame out of order, or none that closes the tender
    Order,
}

impl Refusal {
    // The refusal's number in the register.
    pub fn number(self) -> u8
        ensures { result ≡ number_of self }
    {
        match self {
            Refusal::Term => 1,
            Refusal::Accounts => 2,
            Refusal::Demand => 3,
            Refusal::BasePrice => 4,
            Refusal::OutsideWindow => 5,
            Refusal::BeforeLatest => 6,
            Refusal::Price => 7,
            Refusal::Lots => 8,
            Refusal::BuyerAccount => 9,
            Refusal::Full => 10,
            Refusal::NoOffer => 11,
            Refusal::OtherMember => 12,
            Refusal::Closing => 13,
            Refusal::Place => 14,
            Refusal::OtherBuyers => 15,
            Refusal::Claims => 16,
            Refusal::RankCount => 17,
            Refusal::EqualRanks => 18,
            Refusal::Stride => 19,
            Refusal::CutShort => 20,
            Refusal::UnknownTag => 21,
            Refusal::WrongLength => 22,
            Refusal::Order => 23,
        }
    }
}

// What stops something on its way: it is refused, or memory runs out.
#[derive(Debug, Drop)]
pub(crate) enum Stop<R> {
    Refused(R),
    Memory(AllocError),
}

impl From<Refusal> for Stop<Refusal> {
    fn from(refusal: Refusal) -> Self {
        Stop::Refused(refusal)
    }
}

impl<R> From<AllocError> for Stop<R> {
    fn from(error: AllocError) -> Self {
        Stop::Memory(error)
    }
}

impl<R, T: Drop> From<AllocFailed<T>> for Stop<R> {
    fn from(failed: AllocFailed<T>) -> Self {
        Stop::Memory(failed.into())
    }
}
