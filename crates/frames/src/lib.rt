// Frames: a one-byte tag, a two-byte length with the high byte first, and that many bytes.
#![tactic(auto)]

pub mod fault;
pub mod layout;
pub mod reader;
pub mod writer;

pub use fault::FrameFault;
pub use layout::{Layout, length_in};
pub use reader::{Frame, Reader};
pub use writer::{WriteFault, write_frame};
