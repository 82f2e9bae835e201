ghost use Rattle.std.specs.Prelude.{◌≡◌, true, length, slice_index};
ghost use Rattle.sharing.specs.Distinct.{distinct};
ghost use Rattle.sharing.specs.Draws.{Narrow, ranks_code, standing};
ghost use Rattle.sharing.specs.Register.{code_of};
ghost use Rattle.sharing.specs.Rows.{row_lawful};
ghost use Rattle.std.specs.List.{range_with_len};

use super::distinct::all_distinct;
use super::draw::Draw;
use super::identity::IDENTITY;
use super::refusal::Refusal;

// The draw that reads a number's rank from 512 ranks lent to it, no two of them equal.
#[derive(Drop)]
pub struct RecordedDraw<'a> {
    ranks: &'a [u16],
    ghost long: { length ranks.now ≡ 512 },
    ghost apart: { distinct ranks.now ≡ true },
    ghost narrow: { Narrow ranks.now },
}

impl<'a> RecordedDraw<'a> {
    // Whether a draw can stand on the ranks.
    pub fn check(ranks: &[u16]) -> Result<(), Refusal>
        ensures { code_of result ≡ ranks_code ranks.now }
    {
        if ranks.len() != 512 {
            return Err(Refusal::RankCount);
        }
        if !all_distinct(ranks) {
            return Err(Refusal::EqualRanks);
        }
        Ok(())
    }

    // The draw on the built-in ranks.
    fn identity() -> RecordedDraw<'a>
        ensures { result.ranks.now ≡ range_with_len 0 512 }
    {
        RecordedDraw { ranks: &IDENTITY }
    }

    // The draw on the ranks, or on the built-in ones where these are refused.
    pub fn new(ranks: &'a [u16]) -> RecordedDraw<'a>
        ensures { result.ranks.now ≡ standing ranks.now }
    {
        if let Err(_) = RecordedDraw::check(ranks) {
            return RecordedDraw::identity();
        }
        RecordedDraw { ranks }
    }
}

impl<'a> Draw for RecordedDraw<'a> {
    ghost rank_of = { λ d n. slice_index d.ranks.now n };

    ghost sound = { λ _. Unit {0} };

    ghost lawful = { λ d _. row_lawful d.ranks.now d.long d.apart d.narrow };

    fn rank(&mut self, number: u16) -> u16 {
        let n = number.min(511) as usize;
        self.ranks[n]
    }
}
