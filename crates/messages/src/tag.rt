// The tags of a tender file.
ghost use Rattle.std.specs.Prelude.{◌≡◌};
ghost use Rattle.messages.specs.Tags.{byte_of, Names};

// What a frame says, by the byte that it begins with.
#[derive(Clone, Copy, PartialEq, Eq, Debug)]
pub enum Tag {
    Terms = 1,
    Buyer = 2,
    Open = 3,
    Entry = 4,
    Change = 5,
    Cancel = 6,
    Close = 7,
    Draw = 8,
}

// A byte that is no tag.
#[derive(Clone, Copy, PartialEq, Eq, Debug)]
pub struct UnknownTag(pub u8);

// Each tag once.
static TAGS: [Tag; 8] = [
    Tag::Terms,
    Tag::Buyer,
    Tag::Open,
    Tag::Entry,
    Tag::Change,
    Tag::Cancel,
    Tag::Close,
    Tag::Draw,
];

impl Tag {
    // Answers the byte of the tag.
    pub fn byte(self) -> u8
        ensures { result ≡ byte_of self }
    {
        self as u8
    }
}

impl TryFrom<u8> for Tag {
    type Error = UnknownTag;

    ghost try_from_gives = { Names };

    fn try_from(byte: u8) -> Result<Tag, UnknownTag> {
        TAGS.iter()
            .copied()
            .find(|tag| tag.byte() == byte)
            .ok_or(UnknownTag(byte))
    }
}
