// A text as lines, and a line as words.
ghost use Rattle.std.specs.Prelude.{◌≡◌, IfOk};
ghost use Rattle.encode.specs.Pieces.{lines_of, words_of, texts};

use std::alloc::{AllocError, Global};

// Answers the lines of a text, also empty ones.
pub fn lines<'a>(heap: Global, text: &'a [u8]) -> Result<Vec<&'a [u8]>, AllocError>
    ensures { IfOk result (λ v. texts v ≡ lines_of text.now) }
{
    text.split(|byte| *byte == b'\n').collect(heap)
}

// Answers the words of a line, which spaces separate.
pub fn words<'a>(heap: Global, line: &'a [u8]) -> Result<Vec<&'a [u8]>, AllocError>
    ensures { IfOk result (λ v. texts v ≡ words_of line.now) }
{
    line.split(|byte| *byte == b' ')
        .filter(|word| !word.is_empty())
        .collect(heap)
}
