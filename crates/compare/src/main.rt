// Runs the product and the reference on the same tenders, draws, sharings and settlements, and compares every figure.
#![tactic(auto)]

mod bench;
mod cases;
mod damage;
mod dice;
mod encode;
mod figures;
mod files;
mod generate;
mod plan;
mod product;
mod program;
mod score;
mod script;
mod second;
mod settlements;
mod sharings;
mod steps;

use anyhow::anyhow;
use bench::Bench;
use cases::compare_cases;
use dice::Dice;
use encode::encode;
use files::compare_file;
use generate::{damage, generated};
use score::Score;
use settlements::compare_settlements;
use sharings::{compare_records, compare_sharings, compare_strides};
use std::{env, fs};
use steps::compare_steps;

// How many tenders are generated where the second argument does not say.
const TENDERS: u32 = 4_000;

// Compares a generated tender step by step, its file, and the file damaged.
fn compare_generated(bench: &mut Bench<'_>, dice: &mut Dice) -> anyhow::Result<()> {
    let plan = generated(bench.heap(), dice)?;
    let _figures = compare_steps(bench, &plan)?;
    let mut file = encode(bench.heap(), &plan)?;
    let _line = compare_file(bench, file.as_slice())?;
    damage(&mut file, dice)?;
    let _line = compare_file(bench, file.as_slice())?;
    Ok(())
}

// Compares what is generated: draws, tenders and sharings.
fn compare_all(bench: &mut Bench<'_>, dice: &mut Dice, tenders: u32) -> anyhow::Result<()> {
    compare_strides(bench, dice)?;
    compare_records(bench, dice)?;
    for _ in 0..tenders {
        compare_generated(bench, dice)?;
    }
    compare_sharings(bench, dice, tenders)?;
    compare_settlements(bench, dice, tenders)
}

// Compares the cases of the file that the first argument names, and as many generated tenders as the second says.
fn start(rt: &HostRuntime) -> anyhow::Result<()> {
    let mut words = env::args(rt)?;
    let _program = words.next();
    let Some(path) = words.next() else {
        return Err(anyhow!("usage: compare CASES [TENDERS]"));
    };
    let tenders = match words.next() {
        Some(word) => word.as_str().parse::<u32>()?,
        None => TENDERS,
    };
    let score = Score::default();
    let mut bench = Bench { rt, score };
    let mut dice = Dice::new(0x2545_f491_4f6c_dd1d);
    let text = fs::read_to_string(rt, path)?;
    compare_cases(&mut bench, text.as_str())?;
    compare_all(&mut bench, &mut dice, tenders)?;
    bench.score.show(rt)
}

fn main(rt: HostRuntime) -> anyhow::Result<()> {
    start(&rt)
}
