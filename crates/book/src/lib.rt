// The offers of an open tender, in a book that takes entries, changes and cancellations.
#![tactic(auto)]

pub mod book;
pub mod call;
pub mod cancel;
pub mod change;
pub(crate) mod checks;
pub mod entry;
pub mod finding;
pub(crate) mod judge;
pub mod offer;
pub(crate) mod seek;

pub use book::Book;
pub use call::Call;
pub use cancel::Cancellation;
pub use change::Change;
pub use entry::Entry;
pub use finding::Sheet;
pub use offer::Offer;
