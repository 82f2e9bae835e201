// Makes a tender file of a text: one line a frame, the frames on standard output.
#![tactic(auto)]

mod code;
mod encode;
mod failure;
mod line;
mod number;
mod pieces;
mod verb;

use encode::encode;
use failure::Failure;
use std::alloc::Global;
use std::io::{Read, Write};
use std::process::ExitCode;
use std::{env, fs, io};

// How many bytes of text are read. The text of the longest file is far shorter.
const MOST_TEXT: usize = 1_048_576;

// Reads to the end, or one byte further than a text may be.
fn read_some<R: Read + Drop>(heap: Global, reader: R) -> io::Result<Vec<u8>> {
    let mut bytes = Vec::new(heap);
    reader.take(MOST_TEXT as u64 + 1).read_to_end(&mut bytes)?;
    Ok(bytes)
}

// The text of the file that the first argument names, or of standard input without one.
fn text(rt: &HostRuntime) -> Result<Vec<u8>, Failure> {
    let mut args = env::args(rt)?;
    let _program = args.next();
    let text = match args.next() {
        Some(path) => read_some(rt.alloc(), fs::open(rt, path.as_str())?)?,
        None => read_some(rt.alloc(), rt.stdin())?,
    };
    if text.len() > MOST_TEXT {
        return Err(Failure::TooLong);
    }
    Ok(text)
}

// Writes the frames of the text.
fn run(rt: &HostRuntime) -> Result<(), Failure> {
    let text = text(rt)?;
    let frames = encode(rt.alloc(), text.as_slice())?;
    rt.stdout().write_all(frames.as_slice())?;
    Ok(())
}

fn main(rt: HostRuntime) -> ExitCode {
    match run(&rt) {
        Ok(()) => ExitCode::SUCCESS,
        Err(failure) => {
            let _ = eprintln!(rt; "{failure}");
            ExitCode::FAILURE
        }
    }
}
