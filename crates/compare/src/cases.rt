// The commands that compare, and the file of cases.
use super::bench::Bench;
use super::damage::{cut, flip, from_hex, padded, spliced};
use super::encode::encode;
use super::files::{expect_line, expect_shown};
use super::plan::Plan;
use super::script::{Command, build};
use super::steps::{expect_call, expect_refusal};
use std::alloc::{AllocError, Global};

// What is compared next: a tender, and the bytes of its file, which may be damaged.
#[derive(Drop)]
pub(crate) struct Case {
    plan: Plan,
    file: Vec<u8>,
}

impl Case {
    // Makes the file that a line asks for, and answers whether the line is such a one.
    fn make_file(&mut self, heap: Global, command: &Command<'_>) -> Result<bool, AllocError> {
        let first = command.field(0) as usize;
        match command.word {
            "file" => self.file = encode(heap, &self.plan)?,
            "bytes" => self.file = from_hex(heap, command.rest)?,
            "splice" => self.file = spliced(heap, self.file.as_slice(), first, command.rest)?,
            "pad" => padded(&mut self.file, first)?,
            _ => return Ok(false),
        }
        Ok(true)
    }

    // Compares the file, or the tender step by step, as a line asks, and answers whether the line is such a one.
    fn compare_as(&self, bench: &mut Bench<'_>, command: &Command<'_>) -> anyhow::Result<bool> {
        let file = self.file.as_slice();
        let number = u64::from(command.field(0));
        match command.word {
            "line" => expect_line(bench, file, command.rest)?,
            "shown" => expect_shown(bench, file, command.rest)?,
            "cut" => cut(bench, file)?,
            "flip" => flip(bench, file)?,
            "call" => expect_call(bench, &self.plan, number)?,
            "refused" => expect_refusal(bench, &self.plan, number)?,
            _ => return Ok(false),
        }
        Ok(true)
    }

    // Does what one line says, and answers whether it says something.
    fn follow(&mut self, bench: &mut Bench<'_>, line: &str) -> anyhow::Result<bool> {
        let heap = bench.heap();
        let Some((word, rest)) = line.split_once(' ') else {
            return Ok(false);
        };
        let command = Command::new(heap, word, rest)?;
        Ok(
            build(heap, &mut self.plan, &command)?
                || self.make_file(heap, &command)?
                || self.compare_as(bench, &command)?,
        )
    }
}

// Goes through the lines of a text; empty ones and those that begin with # are passed over.
pub(crate) fn compare_cases(bench: &mut Bench<'_>, text: &str) -> anyhow::Result<()> {
    let heap = bench.heap();
    let mut case = Case {
        plan: Plan::general(heap),
        file: Vec::new(heap),
    };
    for line in text.lines() {
        if line.is_empty() || line.starts_with('#') {
            continue;
        }
        if !case.follow(bench, line)? {
            let rt = bench.rt;
            println!(rt; "unknown line: {line}")?;
            bench.score.expected.note(false);
        }
    }
    Ok(())
}
