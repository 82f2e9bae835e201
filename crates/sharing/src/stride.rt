ghost use Rattle.std.specs.Prelude.{◌≡◌, ℕ, ◌%◌, ◌≤◌, IfOk};
ghost use Rattle.sharing.specs.Draws.{stridden, stride_code};
ghost use Rattle.sharing.specs.Odd.{odd_lawful};
ghost use Rattle.sharing.specs.Register.{code_of};

use super::draw::Draw;
use super::refusal::Refusal;

// The draw that ranks a number by (stride × number + shift) modulo 512.
#[derive(Clone, Copy, PartialEq, Eq, Debug)]
pub struct StrideDraw {
    stride: u16,
    shift: u16,
    ghost odd: { stride % 2 ≡ 1 },
    ghost narrow: { stride ≤ 511 },
    ghost near: { shift ≤ 511 },
}

impl StrideDraw {
    // Refused unless the stride is odd and both numbers are at most 511.
    pub fn new(stride: u16, shift: u16) -> Result<StrideDraw, Refusal>
        ensures code { code_of result ≡ stride_code stride shift }
        ensures made { IfOk result (λ d. (d.stride ≡ stride) × (d.shift ≡ shift)) }
    {
        if stride % 2 == 0 || stride > 511 || shift > 511 {
            return Err(Refusal::Stride);
        }
        Ok(StrideDraw { stride, shift })
    }
}

impl Draw for StrideDraw {
    ghost rank_of = { λ d. stridden d.stride d.shift };

    ghost sound = { λ _. Unit {0} };

    ghost lawful = { λ d _. odd_lawful d.stride d.shift d.odd };

    fn rank(&mut self, number: u16) -> u16 {
        let n = number.min(511);
        ((u32::from(self.stride) * u32::from(n) + u32::from(self.shift)) % 512) as u16
    }
}
