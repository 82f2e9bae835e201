// Reading a file frame by frame.
ghost use Rattle.std.specs.Prelude.{◌≡◌, OnErr};
ghost use Rattle.frames.specs.Frames.{Opened, Judged, Next};

use super::fault::{FrameFault, MOST_BYTES};
use super::layout::{Layout, length_in};

// A frame of a file: its tag, the place of its first byte, and its value as a part of the file.
#[derive(Clone, Copy, PartialEq, Eq, Debug)]
pub struct Frame<'a> {
    pub tag: u8,
    pub place: usize,
    pub value: &'a [u8],
}

// A file that is read from its start.
#[derive(Drop)]
pub struct Reader<'a> {
    file: &'a [u8],
    // how many bytes were read
    at: usize,
}

// Answers the length of the first frame's value, or the fault of that frame, which stands at the place.
fn judge(layouts: &[Layout], rest: &[u8], place: usize) -> Result<usize, FrameFault>
    ensures { Judged layouts.now rest.now place result }
{
    let [tag, high, low, value @ ..] = rest else {
        return Err(FrameFault::CutShort(place));
    };
    let length = u16::from_be_bytes([*high, *low]);
    if value.len() < usize::from(length) {
        return Err(FrameFault::CutShort(place));
    }
    let known = length_in(layouts, *tag).ok_or(FrameFault::UnknownTag(place))?;
    if length != known {
        return Err(FrameFault::WrongLength(place));
    }
    Ok(usize::from(length))
}

impl<'a> Reader<'a> {
    // Begins to read a file, unless it is too long.
    pub fn open(file: &'a [u8]) -> Result<Reader<'a>, FrameFault>
        ensures { Opened file.now result }
    {
        if file.len() > MOST_BYTES {
            return Err(FrameFault::TooLong);
        }
        Ok(Reader { file, at: 0 })
    }

    // Answers the place of the next frame.
    pub fn place(&self) -> usize
        ensures { result ≡ self.now.at }
    {
        self.at
    }

    // Answers the next frame, or none at the end of the file. A frame that the layouts do not know is a fault, and a fault leaves
    // the reader where it was.
    pub fn next(&mut self, layouts: &[Layout]) -> Result<Option<Frame<'a>>, FrameFault>
        ensures next { Next layouts.now self.old.file.now self.old.at result self.new.at }
        ensures file { self.new.file ≡ self.old.file }
        ensures unchanged { OnErr result (self.new ≡ self.old) }
    {
        let file = self.file;
        let place = self.at;
        if place >= file.len() {
            return Ok(None);
        }
        let length = judge(layouts, &file[place..], place)?;
        self.at = place + 3 + length;
        Ok(Some(Frame {
            tag: file[place],
            place,
            value: &file[place + 3..place + 3 + length],
        }))
    }
}
