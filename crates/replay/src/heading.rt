// A tender from the start of its file to its opening.
ghost use Rattle.std.specs.Prelude.{◌≡◌};
ghost use Rattle.messages.specs.Reading.{file_of, next_place};
ghost use Rattle.replay.specs.Running.{Headed, OpenedAt};

use super::reading::{Heading, Opening, read_base, read_buyers, read_terms};
use arrayvec::ArrayVec;
use faults::ProgramFault;
use messages::MessageReader;
use sharing::StrideDraw;
use stages::{Buyer, Filed, Open, file};

// A tender that is filed, with its buyers and its draw.
#[derive(Drop)]
pub struct Drawing {
    pub filed: Filed,
    pub buyers: ArrayVec<Buyer, 8>,
    pub draw: StrideDraw,
}

// Reads the terms, the buyers and the draw, files the tender and makes the draw. The place of a refusal is that of the draw.
pub(crate) fn read_tender<'a>(reader: &mut MessageReader<'a>) -> Result<Drawing, ProgramFault>
    ensures headed { Headed (file_of reader.old) (next_place reader.old) result (next_place reader.new) }
    ensures file { file_of reader.new ≡ file_of reader.old }
{
    let terms = read_terms(reader)?;
    let Heading {
        buyers,
        draw: numbers,
        place,
    } = read_buyers(reader)?;
    let filed = file(&terms, buyers.as_slice()).map_err(|refusal| ProgramFault::Rule(
        refusal, place,
    ))?;
    let draw = StrideDraw::new(numbers.stride, numbers.shift).map_err(|refusal| ProgramFault::Draw(
        refusal, place,
    ))?;
    Ok(Drawing {
        filed,
        buyers,
        draw,
    })
}

// Reads the base price and opens the tender.
pub(crate) fn read_opening<'a>(
    reader: &mut MessageReader<'a>,
    filed: Filed,
) -> Result<Open, ProgramFault>
    ensures opened { OpenedAt (file_of reader.old) (next_place reader.old) filed.particulars result (next_place reader.new) }
    ensures file { file_of reader.new ≡ file_of reader.old }
{
    let Opening { base, place } = read_base(reader)?;
    filed
        .open(base)
        .map_err(|refused| ProgramFault::Rule(refused.0, place))
}
