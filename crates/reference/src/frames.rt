// The frames of a file: a tag, a length of two bytes, and so many bytes.
ghost use Rattle.std.specs.Prelude.{◌<◌, length, IfSome};

use super::refusal::Refusal;

// What a frame tells.
#[derive(Clone, Copy, PartialEq, Eq, Debug)]
pub(crate) enum Tag {
    Terms,
    Buyer,
    Opening,
    Entry,
    Change,
    Cancellation,
    Closing,
    Draw,
}

impl TryFrom<u8> for Tag {
    type Error = Refusal;

    fn try_from(byte: u8) -> Result<Self, Refusal> {
        match byte {
            1 => Ok(Tag::Terms),
            2 => Ok(Tag::Buyer),
            3 => Ok(Tag::Opening),
            4 => Ok(Tag::Entry),
            5 => Ok(Tag::Change),
            6 => Ok(Tag::Cancellation),
            7 => Ok(Tag::Closing),
            8 => Ok(Tag::Draw),
            _ => Err(Refusal::UnknownTag),
        }
    }
}

impl Tag {
    // How long its value is.
    pub(crate) fn width(self) -> usize {
        match self {
            Tag::Terms => 13,
            Tag::Buyer => 8,
            Tag::Opening => 4,
            Tag::Entry => 20,
            Tag::Change => 18,
            Tag::Cancellation => 10,
            Tag::Closing => 4,
            Tag::Draw => 4,
        }
    }
}

// A frame, of whatever tag and length.
#[derive(Clone, Copy)]
pub(crate) struct Frame<'a> {
    pub(crate) tag: u8,
    pub(crate) value: &'a [u8],
}

// The number in so many bytes, the high byte first.
pub(crate) fn number(bytes: &[u8], from: usize, width: usize) -> u32 {
    bytes.iter().skip(from).take(width).fold(
        0,
        |number: u32, byte| number.wrapping_mul(256).wrapping_add(u32::from(*byte)),
    )
}

// The four bytes of a member code.
pub(crate) fn member(bytes: &[u8], from: usize) -> [u8; 4] {
    number(bytes, from, 4).to_be_bytes()
}

// The first frame and the bytes behind it, or none where it is cut short.
pub(crate) fn first_frame(bytes: &[u8]) -> Option<(Frame<'_>, &[u8])>
    ensures { IfSome result (λ found. length found.1.now < length bytes.now) }
{
    let [tag, high, low, rest @ ..] = bytes else {
        return None;
    };
    let length = usize::from(u16::from_be_bytes([*high, *low]));
    let (value, behind) = rest.split_at_checked(length)?;
    Some((Frame { tag: *tag, value }, behind))
}
