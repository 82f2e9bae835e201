ghost use Rattle.std.specs.Prelude.{◌≡◌, length, MatchResult, OnOk};
ghost use Rattle.sharing.specs.Bounds.{Near};
ghost use Rattle.sharing.specs.Claims.{share_code};
ghost use Rattle.sharing.specs.Dividing.{divided_fair};
ghost use Rattle.sharing.specs.Kept.{Kept};
ghost use Rattle.sharing.specs.Register.{code_of};
ghost use Rattle.sharing.specs.Shares.{divided};
ghost use Rattle.sharing.specs.declared.leftover.Leftover.{Leftover as Left};

use super::claim::Claim;
use super::divide::divide;
use super::draw::Draw;
use super::leftover::Leftover;
use super::refusal::Refusal;
use super::rule::SharingRule;
use std::marker::PhantomData;

// Says by a type who comes ahead for the lots that are left over.
pub trait Precedence {
    ghost LEFTOVER: { Left };

    const LEFTOVER: Leftover;
}

// The rule by which each claim gets its part with the fraction dropped, and the lots left over go one each to those
// ahead by `P`, equals by the draw.
#[derive(Drop)]
pub struct Quota<D, P> {
    draw: D,
    precedence: PhantomData<P>,
}

impl<D, P> Quota<D, P> {
    // The rule round a draw.
    pub fn new(draw: D) -> Quota<D, P>
        ensures { result.draw ≡ draw }
    {
        Quota {
            draw,
            precedence: PhantomData,
        }
    }

    // The draw, given back.
    pub fn into_draw(self) -> D
        ensures { result ≡ self.draw }
    {
        let Quota { draw, .. } = self;
        draw
    }
}

impl<D: Draw, P: Precedence> SharingRule for Quota<D, P> {
    ghost shares_of = { λ s. divided P.LEFTOVER (D.Draw.rank_of s.draw) };

    ghost sound = { λ s. D.Draw.sound s.draw };

    ghost lawful = { λ s sound cs ok amount. divided_fair P.LEFTOVER (D.Draw.rank_of s.draw) (D.Draw.lawful s.draw sound) cs ok amount };

    fn share(&mut self, claims: &[Claim], amount: u32, shares: &mut [u32]) -> Result<(), Refusal>
        ensures kept { Kept (λ s. D.Draw.sound s.draw) (λ s. divided P.LEFTOVER (D.Draw.rank_of s.draw)) self.old self.new }
        ensures code { code_of result ≡ share_code claims.now (length shares.old) }
        ensures shared { MatchResult result (λ _. D.Draw.sound self.old.draw → shares.new ≡ divided P.LEFTOVER (D.Draw.rank_of self.old.draw) claims.now amount) (λ _. shares.new ≡ shares.old) }
        ensures near { OnOk result (D.Draw.sound self.old.draw → Near P.LEFTOVER claims.now amount shares.new) }
    {
        divide(&mut self.draw, P::LEFTOVER, claims, amount, shares)
    }
}
