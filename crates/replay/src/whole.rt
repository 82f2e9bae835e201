// A whole tender file.
ghost use Rattle.replay.specs.Files.{OneVerdict};
ghost use Rattle.replay.specs.Running.{Replayed, ReaderAt};

use super::heading::{Drawing, read_opening, read_tender};
use super::report::Report;
use super::running::{Ran, run_open};
use faults::{OrderFault, ProgramFault};
use messages::MessageReader;

// Begins to read the file, unless it is too long.
fn open<'a>(file: &'a [u8]) -> Result<MessageReader<'a>, OrderFault>
    ensures { ReaderAt file.now result }
{
    Ok(MessageReader::open(file)?)
}

// Runs the tender that the file tells of, from its filing to its allotment: its report, or the fault that the file comes to.
pub fn run(file: &[u8]) -> Result<Report, ProgramFault>
    ensures answer { Replayed file.now result }
    ensures alone { OneVerdict file.now }
{
    let mut reader = open(file)?;
    let Drawing {
        filed,
        buyers,
        draw,
    } = read_tender(&mut reader)?;
    let tender = read_opening(&mut reader, filed)?;
    let particulars = tender.particulars();
    let Ran {
        outcome,
        offers,
        fills,
        rows,
    } = run_open(&mut reader, tender, buyers.as_slice(), draw)?;
    Ok(Report {
        particulars,
        outcome,
        offers,
        fills,
        buyers,
        rows,
    })
}
