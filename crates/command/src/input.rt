// The input of a program.
ghost use Rattle.std.specs.Prelude.{◌≤◌, IfOk, vec_len};

use super::failure::Failure;
use std::alloc::Global;
use std::io::Read;
use std::{env, fs, io};

// How many bytes are read at most: one more than a tender file may have, so that one that is too long is known.
const MOST_READ: usize = 65_537;

// Reads to the end, or as far as a file may be read.
fn read_some<R: Read + Drop>(heap: Global, reader: R) -> io::Result<Vec<u8>>
    ensures { IfOk result (λ v. vec_len v ≤ 65537) }
{
    let mut bytes = Vec::new(heap);
    reader.take(MOST_READ as u64).read_to_end(&mut bytes)?;
    bytes.truncate(MOST_READ);
    Ok(bytes)
}

// Reads the file that the one argument names, or standard input without one.
pub fn read_input(rt: &HostRuntime) -> Result<Vec<u8>, Failure>
    ensures { IfOk result (λ v. vec_len v ≤ 65537) }
{
    let mut args = env::args(rt)?;
    let _program = args.next();
    let path = args.next();
    if args.next().is_some() {
        return Err(Failure::Usage);
    }
    let bytes = match path {
        Some(path) => read_some(rt.alloc(), fs::open(rt, path.as_str())?)?,
        None => read_some(rt.alloc(), rt.stdin())?,
    };
    Ok(bytes)
}
