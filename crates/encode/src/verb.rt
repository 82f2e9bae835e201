// The first word of a line, which says what frame it is.
ghost use Rattle.std.specs.Prelude.{◌≡◌};
ghost use Rattle.encode.specs.Lines.{named};

use messages::Tag;

// Answers the tag that the word names, if it names one.
pub fn named(word: &[u8]) -> Option<Tag>
    ensures { result ≡ named word.now }
{
    match word {
        b"terms" => Some(Tag::Terms),
        b"buyer" => Some(Tag::Buyer),
        b"draw" => Some(Tag::Draw),
        b"open" => Some(Tag::Open),
        b"entry" => Some(Tag::Entry),
        b"change" => Some(Tag::Change),
        b"cancel" => Some(Tag::Cancel),
        b"close" => Some(Tag::Close),
        _ => None,
    }
}
