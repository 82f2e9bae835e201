// A message of a tender file, of whichever kind.
ghost use Rattle.std.specs.Prelude.{◌≡◌};
ghost use Rattle.messages.specs.Messages.{tag_of, message_of};
ghost use Rattle.messages.specs.Reading.{Says};

use super::tag::Tag;
use book::{Call, Cancellation, Change, Entry};
use frames::Layout;
use stages::{Buyer, Terms};
use values::{DrawNumbers, Value};

// A message of a tender file.
#[derive(Clone, Copy)]
pub enum Message {
    Terms(Terms),
    Buyer(Buyer),
    Draw(DrawNumbers),
    // the base price
    Open(u32),
    Call(Call),
    // the time
    Close(u32),
}

// The tags of a tender file, and the length of each one's values.
pub static LAYOUTS: [Layout; 8] = [
    Layout {
        tag: Tag::Terms as u8,
        length: 13,
    },
    Layout {
        tag: Tag::Buyer as u8,
        length: 8,
    },
    Layout {
        tag: Tag::Open as u8,
        length: 4,
    },
    Layout {
        tag: Tag::Entry as u8,
        length: 20,
    },
    Layout {
        tag: Tag::Change as u8,
        length: 18,
    },
    Layout {
        tag: Tag::Cancel as u8,
        length: 10,
    },
    Layout {
        tag: Tag::Close as u8,
        length: 4,
    },
    Layout {
        tag: Tag::Draw as u8,
        length: 4,
    },
];

impl Message {
    // Answers the tag of the message's frame.
    pub fn tag(&self) -> u8
        ensures { result ≡ tag_of self.now }
    {
        let tag = match self {
            Message::Terms(_) => Tag::Terms,
            Message::Buyer(_) => Tag::Buyer,
            Message::Open(_) => Tag::Open,
            Message::Call(Call::Enter(_)) => Tag::Entry,
            Message::Call(Call::Change(_)) => Tag::Change,
            Message::Call(Call::Cancel(_)) => Tag::Cancel,
            Message::Close(_) => Tag::Close,
            Message::Draw(_) => Tag::Draw,
        };
        tag.byte()
    }
}

// Answers the message that a value of the tag says, if there is one.
pub fn message_in(tag: u8, value: &[u8]) -> Option<Message>
    ensures reads { result ≡ message_of tag value.now }
    ensures back { Says tag value.now result }
{
    match Tag::try_from(tag).ok()? {
        Tag::Terms => Some(Message::Terms(Terms::decode(value)?)),
        Tag::Buyer => Some(Message::Buyer(Buyer::decode(value)?)),
        Tag::Open => Some(Message::Open(u32::decode(value)?)),
        Tag::Entry => Some(Message::Call(Call::Enter(Entry::decode(value)?))),
        Tag::Change => Some(Message::Call(Call::Change(Change::decode(value)?))),
        Tag::Cancel => Some(Message::Call(Call::Cancel(Cancellation::decode(value)?))),
        Tag::Close => Some(Message::Close(u32::decode(value)?)),
        Tag::Draw => Some(Message::Draw(DrawNumbers::decode(value)?)),
    }
}
