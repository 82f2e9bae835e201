// Draws and sharing rules, through the library.
use super::bench::Bench;
use super::dice::Dice;
use super::figures::Figures;
use super::product::narrow;
use reference::Rule;
use sharing::{
    Claim, Draw, LargestRemainder, Proportional, RecordedDraw, Refusal, SharingRule, StrideDraw,
    TimeOrder,
};
use std::alloc::{AllocError, Global};

// The number by which both sides refuse, which comes first; 0 where they accept.
fn number_of(figures: &Figures) -> u64 {
    figures.as_slice().first().copied().unwrap_or(0)
}

// The product's refusal of a stride draw, or its ranks.
fn product_stride(heap: Global, stride: u32, shift: u32) -> Result<Figures, AllocError> {
    let mut figures = Figures::new(heap);
    let draw = StrideDraw::new(narrow(stride), narrow(shift));
    if let Some(mut draw) = figures.answer(draw)? {
        figures.ranks(|number| draw.rank(number))?;
    }
    Ok(figures)
}

// The reference's refusal of a stride draw, or its ranks.
fn reference_stride(heap: Global, stride: u32, shift: u32) -> Result<Figures, AllocError> {
    let mut figures = Figures::new(heap);
    if let Some(()) = figures.answer(reference::judge_stride(stride, shift))? {
        let drawn = reference::stride_ranks(heap, stride, shift)?;
        let drawn = drawn.as_slice();
        figures.ranks(|number| reference::rank(drawn, u32::from(number)))?;
    }
    Ok(figures)
}

// Compares a stride draw.
fn compare_stride(bench: &mut Bench<'_>, stride: u32, shift: u32) -> anyhow::Result<()> {
    let product = product_stride(bench.heap(), stride, shift)?;
    let reference = reference_stride(bench.heap(), stride, shift)?;
    let agrees = product == reference;
    bench.score.draws.note(agrees);
    bench.score.meet(number_of(&product));
    if !agrees {
        let rt = bench.rt;
        println!(rt; "draws differ: stride {stride}, shift {shift}")?;
    }
    Ok(())
}

// The product's refusal of recorded ranks, and how the draw then ranks.
fn product_recorded(heap: Global, ranks: &[u16]) -> Result<Figures, AllocError> {
    let mut figures = Figures::new(heap);
    let _accepted = figures.answer(RecordedDraw::check(ranks))?;
    let mut draw = RecordedDraw::new(ranks);
    figures.ranks(|number| draw.rank(number))?;
    Ok(figures)
}

// The reference's refusal of recorded ranks, and how the draw then ranks.
fn reference_recorded(heap: Global, ranks: &[u16]) -> Result<Figures, AllocError> {
    let mut figures = Figures::new(heap);
    let _accepted = figures.answer(reference::judge_ranks(ranks))?;
    let drawn = reference::recorded_ranks(heap, ranks)?;
    let drawn = drawn.as_slice();
    figures.ranks(|number| reference::rank(drawn, u32::from(number)))?;
    Ok(figures)
}

// Compares a recorded draw: whether its ranks are refused, and how it then ranks.
fn compare_recorded(bench: &mut Bench<'_>, ranks: &[u16]) -> anyhow::Result<()> {
    let product = product_recorded(bench.heap(), ranks)?;
    let reference = reference_recorded(bench.heap(), ranks)?;
    let agrees = product == reference;
    let number = number_of(&reference);
    bench.score.draws.note(agrees);
    bench.score.meet(number);
    if !agrees {
        let rt = bench.rt;
        println!(rt; "recorded draws differ: {number}")?;
    }
    Ok(())
}

// Claims under numbers that differ, unless the dice fall so; lots mostly few.
fn claims(heap: Global, dice: &mut Dice) -> Result<Vec<Claim>, AllocError> {
    let count = match dice.below(40) {
        0 => 0,
        1 => dice.between(500, 514),
        _ => dice.between(1, 20),
    };
    let mut number = dice.below(512);
    let step = dice.below(256) * 2 + 1;
    let most = if dice.once_in(6) { 1_000_000 } else { 9 };
    let mut claims = Vec::new(heap);
    for _ in 0..count {
        claims.push(Claim {
            number: narrow(number),
            lots: dice.between(1, most),
        })?;
        number = (number % 512).saturating_add(step) % 512;
    }
    if dice.once_in(8) {
        claims.push(Claim {
            number: narrow(dice.below(514)),
            lots: dice.below(3) * 500_001,
        })?;
    }
    Ok(claims)
}

// The claim in the reference's type. Both types belong to other crates, so it can be no `From`.
fn claim_of(claim: &Claim) -> reference::Claim {
    reference::Claim {
        number: u32::from(claim.number),
        lots: claim.lots,
    }
}

// The product's shares under the rule, or its refusal.
fn share_by<D: Draw + Drop>(
    rule: Rule,
    draw: D,
    claims: &[Claim],
    amount: u32,
    shares: &mut [u32],
) -> Result<(), Refusal> {
    match rule {
        Rule::Proportional => {
            let mut rule = Proportional::new(draw);
            rule.share(claims, amount, shares)
        }
        Rule::Remainder => {
            let mut rule = LargestRemainder::new(draw);
            rule.share(claims, amount, shares)
        }
        Rule::Time => {
            let mut rule = TimeOrder;
            rule.share(claims, amount, shares)
        }
    }
}

// What is asked of a rule.
#[derive(Drop)]
struct Sharing {
    rule: Rule,
    ranks: Vec<u16>,
    claims: Vec<Claim>,
    amount: u32,
    place: usize,
}

// The product's refusal, and what then is in the place.
fn product_shares(heap: Global, asked: &Sharing) -> Result<Figures, AllocError> {
    let mut figures = Figures::new(heap);
    let mut shares = vec![in heap; 0; asked.place]?;
    let _accepted = figures.answer(share_by(
        asked.rule,
        RecordedDraw::new(asked.ranks.as_slice()),
        asked.claims.as_slice(),
        asked.amount,
        shares.as_mut_slice(),
    ))?;
    figures.lots(shares.as_slice())?;
    Ok(figures)
}

// The reference's refusal, and what then is in the place: the shares, or zeros as before.
fn reference_shares(heap: Global, asked: &Sharing) -> Result<Figures, AllocError> {
    let mut figures = Figures::new(heap);
    let claims = asked.claims.iter().map(claim_of).collect::<Vec<_>>(heap)?;
    let accepted = reference::judge_claims(claims.as_slice(), asked.place);
    let shares = if let Some(()) = figures.answer(accepted)? {
        let ranks = reference::recorded_ranks(heap, asked.ranks.as_slice())?;
        reference::shares(
            heap,
            asked.rule,
            ranks.as_slice(),
            claims.as_slice(),
            asked.amount,
        )?
    } else {
        vec![in heap; 0; asked.place]?
    };
    figures.lots(shares.as_slice())?;
    Ok(figures)
}

// Prints a sharing on which the two sides differ.
fn show_sharing(rt: &HostRuntime, asked: &Sharing) -> anyhow::Result<()> {
    println!(rt; "shares of {} differ", asked.amount)?;
    for claim in asked.claims.iter() {
        println!(rt; "claim {} lots {}", claim.number, claim.lots)?;
    }
    Ok(())
}

// Compares one sharing round a recorded draw.
fn compare_sharing(bench: &mut Bench<'_>, asked: &Sharing) -> anyhow::Result<()> {
    let product = product_shares(bench.heap(), asked)?;
    let reference = reference_shares(bench.heap(), asked)?;
    let agrees = product == reference;
    bench.score.shares.note(agrees);
    bench.score.meet(number_of(&product));
    if !agrees {
        show_sharing(bench.rt, asked)?;
    }
    Ok(())
}

// Ranks that differ: a stride over 16 bits.
fn ranks(heap: Global, dice: &mut Dice) -> Result<Vec<u16>, AllocError> {
    let stride = dice.below(32_768) * 2 + 1;
    let mut rank = dice.below(65_536);
    let mut ranks = Vec::new(heap);
    for _ in 0..512 {
        ranks.push(narrow(rank % 65_536))?;
        rank = (rank % 65_536).saturating_add(stride);
    }
    Ok(ranks)
}

// A generated sharing.
fn generated(heap: Global, dice: &mut Dice) -> Result<Sharing, AllocError> {
    let ranks = ranks(heap, dice)?;
    let claims = claims(heap, dice)?;
    let extra = if dice.once_in(20) { 1 } else { 0 };
    Ok(Sharing {
        rule: Rule::Proportional,
        ranks,
        place: claims.len().saturating_add(extra),
        claims,
        amount: dice.below(120),
    })
}

// Compares generated sharings, under each rule.
pub(crate) fn compare_sharings(
    bench: &mut Bench<'_>,
    dice: &mut Dice,
    count: u32,
) -> anyhow::Result<()> {
    for _ in 0..count {
        let mut asked = generated(bench.heap(), dice)?;
        for rule in [Rule::Proportional, Rule::Remainder, Rule::Time] {
            asked.rule = rule;
            compare_sharing(bench, &asked)?;
        }
    }
    Ok(())
}

// Compares stride draws: each stride with some shift, and each shift.
pub(crate) fn compare_strides(bench: &mut Bench<'_>, dice: &mut Dice) -> anyhow::Result<()> {
    for number in 0..516 {
        compare_stride(bench, number, dice.below(512))?;
        compare_stride(bench, 1, number)?;
    }
    Ok(())
}

// Makes two of the ranks equal, or leaves some out.
fn spoil(ranks: &mut Vec<u16>, dice: &mut Dice) {
    if dice.once_in(2) {
        ranks.truncate(dice.below(512) as usize);
    }
    let twin = ranks.as_slice().first().copied().unwrap_or(0);
    if let Some(rank) = ranks.get_mut(dice.below(512) as usize) {
        *rank = twin;
    }
}

// Compares recorded draws: good ranks, and such as are refused. Too few are refused before equal ones.
pub(crate) fn compare_records(bench: &mut Bench<'_>, dice: &mut Dice) -> anyhow::Result<()> {
    for _ in 0..20 {
        let mut ranks = ranks(bench.heap(), dice)?;
        compare_recorded(bench, ranks.as_slice())?;
        spoil(&mut ranks, dice);
        compare_recorded(bench, ranks.as_slice())?;
    }
    compare_recorded(bench, &[3; 511])?;
    compare_recorded(bench, &[3; 512])?;
    compare_recorded(bench, &[3; 513])
}
