// Files that are no tender: cut short, with other bytes put in, too long, or with bytes altered.
ghost use Rattle.std.specs.Prelude.{◌≤◌};

use super::bench::Bench;
use super::files::compare_file;
use std::alloc::{AllocError, Global};

// The value of a hexadecimal digit; 0 for any other letter.
fn digit(letter: u8) -> u8
    ensures { result ≤ 15 }
{
    match letter {
        b'0'..=b'9' => letter - b'0',
        b'a'..=b'f' => letter - b'a' + 10,
        _ => 0,
    }
}

// The bytes that hexadecimal digits tell, two for each.
pub(crate) fn from_hex(heap: Global, digits: &str) -> Result<Vec<u8>, AllocError> {
    let mut bytes = Vec::new(heap);
    for pair in digits.as_bytes().chunks_exact(2) {
        if let [high, low] = pair {
            bytes.push(digit(*high) * 16 + digit(*low))?;
        }
    }
    Ok(bytes)
}

// A file with the bytes of the second word put in at a place.
pub(crate) fn spliced(
    heap: Global,
    file: &[u8],
    place: usize,
    words: &str,
) -> Result<Vec<u8>, AllocError> {
    let Some((_place, digits)) = words.split_once(' ') else {
        return file.to_vec(heap);
    };
    let more = from_hex(heap, digits)?;
    let place = place.min(file.len());
    let (before, after) = file.split_at(place);
    let mut whole = before.to_vec(heap)?;
    whole.extend_from_slice(more.as_slice())?;
    whole.extend_from_slice(after)?;
    Ok(whole)
}

// Makes a file so long, with zeros at its end.
pub(crate) fn padded(file: &mut Vec<u8>, length: usize) -> Result<(), AllocError> {
    let length = length.max(file.len());
    file.resize(length, 0)
}

// Compares a file cut at every byte.
pub(crate) fn cut(bench: &mut Bench<'_>, file: &[u8]) -> anyhow::Result<()> {
    for (length, _) in file.iter().enumerate() {
        let _line = compare_file(bench, &file[..length])?;
    }
    Ok(())
}

// A file with another byte at a place.
fn altered(heap: Global, file: &[u8], place: usize, byte: u8) -> Result<Vec<u8>, AllocError> {
    let mut other = file.to_vec(heap)?;
    if let Some(old) = other.get_mut(place) {
        *old = byte;
    }
    Ok(other)
}

// Compares a file with some bits of each byte in turn altered.
pub(crate) fn flip(bench: &mut Bench<'_>, file: &[u8]) -> anyhow::Result<()> {
    for (place, byte) in file.iter().enumerate() {
        for bits in [1, 2, 128, 255] {
            let other = altered(bench.heap(), file, place, *byte ^ bits)?;
            let _line = compare_file(bench, other.as_slice())?;
        }
    }
    Ok(())
}
