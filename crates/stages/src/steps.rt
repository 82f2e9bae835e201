// The steps of a tender from filed to open and from open to closed. A refused step hands the tender back.
ghost use Rattle.std.specs.Prelude.{◌≡◌, MatchResult};
ghost use Rattle.stages.specs.Register.{step_code_of};
ghost use Rattle.stages.specs.Steps.{accepts_base, opening_code, closing_code};

use super::closed::Closed;
use super::filed::Filed;
use super::opened::Open;
use super::particulars::Particulars;
use super::refusal::Refusal;

impl Particulars {
    // Answers whether the base price is in its span.
    fn accepts_base(&self, base: u32) -> bool
        ensures { result ≡ accepts_base self.now base }
    {
        let row = self.kind.row();
        let close = u64::from(self.previous_close);
        let price = 100 * u64::from(base);
        u64::from(row.least) * close <= price && price <= u64::from(row.most) * close
    }
}

impl Filed {
    // Opens the tender with the base price.
    pub fn open(self, base: u32) -> Result<Open, (Refusal, Filed)>
        ensures code { step_code_of result ≡ opening_code self.particulars base }
        ensures state { MatchResult result (λ o. (o.particulars ≡ self.particulars) × (o.base ≡ base)) (λ e. e.1 ≡ self) }
    {
        if !self.particulars.accepts_base(base) {
            return Err((Refusal::BasePrice, self));
        }
        let Filed { particulars } = self;
        Ok(Open { particulars, base })
    }
}

impl Open {
    // Closes the tender at the time.
    pub fn close(self, time: u32) -> Result<Closed, (Refusal, Open)>
        ensures code { step_code_of result ≡ closing_code self.particulars time }
        ensures state { MatchResult result (λ c. (c.particulars ≡ self.particulars) × (c.base ≡ self.base)) (λ e. e.1 ≡ self) }
    {
        if !self.particulars.kind.is_over_at(time) {
            return Err((Refusal::Closing, self));
        }
        let Open { particulars, base } = self;
        Ok(Closed { particulars, base })
    }
}
