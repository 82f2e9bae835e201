// The texts that the product's programs print for a file.
use lines::{Answer, LogLine, Statement, Telling, answer_file};
use std::alloc::{AllocError, Global};

// What is told of the file's report, or the line of the fault.
fn told<T: Telling>(heap: Global, file: &[u8]) -> Result<String, AllocError> {
    match answer_file::<T>(heap, file)? {
        Answer::Report(text) | Answer::Fault(text) => Ok(text),
    }
}

// The log line, or the line of the fault.
pub(crate) fn tender(heap: Global, file: &[u8]) -> Result<String, AllocError> {
    told::<LogLine>(heap, file)
}

// The log line with offers and buyers, or the line of the fault.
pub(crate) fn statement(heap: Global, file: &[u8]) -> Result<String, AllocError> {
    told::<Statement>(heap, file)
}
