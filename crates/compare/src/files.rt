// Files, whole: what both programs print.
use super::bench::Bench;
use super::program;

// Prints a file in hexadecimal digits.
fn show_file(rt: &HostRuntime, file: &[u8]) -> anyhow::Result<()> {
    print!(rt; "file ")?;
    for byte in file {
        print!(rt; "{byte:02x}")?;
    }
    println!(rt; "")?;
    Ok(())
}

// Prints a text under its name.
fn show_text(rt: &HostRuntime, name: &str, text: &str) -> anyhow::Result<()> {
    print!(rt; "{name}\n{text}")?;
    Ok(())
}

// Whether the two sides say the same of a file; where they do not, prints what each says.
fn agree(rt: &HostRuntime, file: &[u8], product: &str, reference: &str) -> anyhow::Result<bool> {
    let agrees = product == reference;
    if !agrees {
        show_file(rt, file)?;
        show_text(rt, "the product says", product)?;
        show_text(rt, "the reference says", reference)?;
    }
    Ok(agrees)
}

// The number in the line of a fault; 0 in any other.
fn fault_number(line: &str) -> u64 {
    let mut words = line.split(' ');
    if words.next() != Some("fault") {
        return 0;
    }
    words.nth(1).and_then(|word| word.parse().ok()).unwrap_or(0)
}

// Compares the line and the statement of a file, and answers the line.
pub(crate) fn compare_file(bench: &mut Bench<'_>, file: &[u8]) -> anyhow::Result<String> {
    let heap = bench.heap();
    let line = program::tender(heap, file)?;
    let other = reference::tender(heap, file)?;
    let agrees = agree(bench.rt, file, line.as_str(), other.as_str())?;
    bench.score.lines.note(agrees);
    let text = program::statement(heap, file)?;
    let other = reference::statement(heap, file)?;
    let agrees = agree(bench.rt, file, text.as_str(), other.as_str())?;
    bench.score.statements.note(agrees);
    bench.score.meet(fault_number(line.as_str()));
    Ok(line)
}

// Notes whether a file's text is as it was known beforehand; where it is not, prints what was expected and what was found.
fn note_text(
    bench: &mut Bench<'_>,
    file: &[u8],
    agrees: bool,
    expected: &str,
    found: &str,
) -> anyhow::Result<()> {
    bench.score.expected.note(agrees);
    if !agrees {
        show_file(bench.rt, file)?;
        show_text(bench.rt, "expected", expected)?;
        show_text(bench.rt, "found", found)?;
    }
    Ok(())
}

// Compares a file of which the line is known beforehand, but for the byte that ends it.
pub(crate) fn expect_line(
    bench: &mut Bench<'_>,
    file: &[u8],
    expected: &str,
) -> anyhow::Result<()> {
    let line = compare_file(bench, file)?;
    let agrees = line.as_str().strip_suffix('\n') == Some(expected);
    note_text(bench, file, agrees, expected, line.as_str())
}

// Compares a file of whose statement one line is known beforehand.
pub(crate) fn expect_shown(
    bench: &mut Bench<'_>,
    file: &[u8],
    expected: &str,
) -> anyhow::Result<()> {
    let text = program::statement(bench.heap(), file)?;
    let agrees = text.as_str().lines().any(|line| line == expected);
    note_text(bench, file, agrees, expected, text.as_str())
}
