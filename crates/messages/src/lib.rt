// The messages of a tender file, and a reader and a writer of them.
#![tactic(auto)]

pub mod message;
pub mod reader;
pub mod tag;
pub mod writer;

pub use message::{LAYOUTS, Message, message_in};
pub use reader::{MessageReader, Placed};
pub use tag::{Tag, UnknownTag};
pub use writer::write_message;
