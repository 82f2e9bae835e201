// What is wrong with a file as frames.
ghost use Rattle.std.specs.Prelude.{◌≡◌};
ghost use Rattle.frames.specs.Faults.{number_of, place_of};

// A fault, with the place of the frame's first byte.
#[derive(Clone, Copy, PartialEq, Eq, Debug)]
pub enum FrameFault {
    // the file ends inside the frame
    CutShort(usize),
    // the file has more bytes than are read
    TooLong,
    // no frame has such a tag
    UnknownTag(usize),
    // frames of the tag have another length
    WrongLength(usize),
}

// How many bytes a file has at most.
pub(crate) const MOST_BYTES: usize = 65_536;

impl FrameFault {
    // Answers the fault's number in the register.
    pub fn number(&self) -> u8
        ensures { result ≡ number_of self.now }
    {
        match self {
            FrameFault::CutShort(_) | FrameFault::TooLong => 20,
            FrameFault::UnknownTag(_) => 21,
            FrameFault::WrongLength(_) => 22,
        }
    }

    // Answers the place of the fault: the frame's first byte, or where a file that is too long should have ended.
    pub fn place(&self) -> usize
        ensures { result ≡ place_of self.now }
    {
        match self {
            FrameFault::CutShort(place)
            | FrameFault::UnknownTag(place)
            | FrameFault::WrongLength(place) => *place,
            FrameFault::TooLong => MOST_BYTES,
        }
    }
}
