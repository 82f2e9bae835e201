// Why a call is refused.
ghost use Rattle.std.specs.Prelude.{◌≡◌};
ghost use Rattle.stages.specs.Register.{number_of};

// Each refusal has its number in the register.
#[derive(Clone, Copy, PartialEq, Eq, Debug)]
pub enum Refusal {
    // filing: a term is outside its range, or terms do not go together
    Term = 1,
    // filing: the wrong number of buyers, or two of one account
    Accounts = 2,
    // filing: a buyer's lots, or those of all, are outside their range
    Demand = 3,
    // opening: the base price is outside its span
    BasePrice = 4,
    // entry, change, cancellation: the time is outside the window
    OutsideWindow = 5,
    // entry, change, cancellation: the time is before the latest accepted call
    BeforeLatest = 6,
    // entry, change: the price is 0 or above the base price
    Price = 7,
    // entry, change: the lots are 0 or above 1,000,000
    Lots = 8,
    // entry: the account is a buyer's
    BuyerAccount = 9,
    // entry: 512 were accepted already
    Full = 10,
    // change, cancellation: no such offer stands
    NoOffer = 11,
    // change, cancellation: the offer is another member's
    OtherMember = 12,
    // closing: the window is not over, or the day is
    Closing = 13,
    // a place for a book, entry: not 512 records
    Place = 14,
    // entry: the buyers handed over are not those filed
    OtherBuyers = 15,
}

impl Refusal {
    // Answers the refusal's number in the register.
    pub fn number(self) -> u8
        ensures { result ≡ number_of self }
    {
        self as u8
    }
}
