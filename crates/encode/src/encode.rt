// A whole text as frames.
ghost use Rattle.encode.specs.Files.{LineWritten, Encoded, Progress};
ghost use Rattle.encode.specs.Pieces.{told};

use super::failure::Failure;
use super::line::{is_passed_over, message};
use super::pieces::{lines, words};
use messages::write_message;
use std::alloc::Global;

// Writes the frame of a line, if it says one, behind what is written already. The number is the line's.
fn write_line(heap: Global, line: &[u8], number: usize, out: &mut Vec<u8>) -> Result<(), Failure>
    ensures { LineWritten line.now number out.old.items result out.new.items }
{
    let words = words(heap, line)?;
    if is_passed_over(words.as_slice()) {
        return Ok(());
    }
    let message = message(words.as_slice()).ok_or(Failure::Line(number))?;
    write_message(&message, out)?;
    Ok(())
}

// Writes the frames of the lines, which are numbered from 1.
fn write_lines(heap: Global, lines: &[&[u8]], out: &mut Vec<u8>) -> Result<(), Failure>
    ensures { Progress (told lines.now) out.old.items result out.new.items }
{
    for (i, line) in lines.iter().enumerate() {
        write_line(heap, line, i + 1, out)?;
    }
    Ok(())
}

// Answers the frames of the text, one for each line that is not passed over, or the number of the first line that says none.
pub fn encode(heap: Global, text: &[u8]) -> Result<Vec<u8>, Failure>
    ensures { Encoded text.now result }
{
    let lines = lines(heap, text)?;
    let mut out = Vec::new(heap);
    write_lines(heap, lines.as_slice(), &mut out)?;
    Ok(out)
}
