// Writing frames.
ghost use Rattle.std.specs.Prelude.{◌≡◌};
ghost use Rattle.frames.specs.Frames.{Written};
ghost use Rattle.frames.specs.declared.writer.WriteFault.TheVariants.{Memory};

use std::alloc::AllocError;

// Why a frame is not written.
#[derive(Clone, Copy, PartialEq, Eq, Debug)]
pub enum WriteFault {
    // the value has more bytes than a length can say
    TooLong,
    // there is not memory enough
    Memory,
}

// Written out, since the clauses of what writes read `from_gives`, which no derive gives.
impl From<AllocError> for WriteFault {
    ghost from_gives = { λ _ r. r ≡ Memory };

    fn from(_error: AllocError) -> WriteFault {
        WriteFault::Memory
    }
}

// Writes a frame behind what is written already, or leaves that as it is.
pub fn write_frame(tag: u8, value: &[u8], out: &mut Vec<u8>) -> Result<(), WriteFault>
    ensures { Written tag value.now out.old.items result out.new.items }
{
    let Ok(length) = u16::try_from(value.len()) else {
        return Err(WriteFault::TooLong);
    };
    let [high, low] = length.to_be_bytes();
    out.reserve(value.len() + 3)?;
    out.extend_from_slice(&[tag, high, low])?;
    out.extend_from_slice(value)?;
    Ok(())
}
