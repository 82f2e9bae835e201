// What was compared, and how much of it agreed.
use anyhow::anyhow;

#[derive(Clone, Copy, PartialEq, Eq, Debug, Default)]
pub(crate) struct Count {
    compared: u64,
    agreed: u64,
}

impl Count {
    // Counts one comparison.
    pub(crate) fn note(&mut self, agrees: bool) {
        self.compared = self.compared.saturating_add(1);
        if agrees {
            self.agreed = self.agreed.saturating_add(1);
        }
    }

    // Prints the count under its name.
    fn show(&self, rt: &HostRuntime, name: &str) -> anyhow::Result<()> {
        let compared = self.compared;
        let agreed = self.agreed;
        println!(rt; "{name}: {compared} compared, {agreed} agreed")?;
        Ok(())
    }

    // Whether something did not agree.
    fn differs(&self) -> bool {
        self.compared != self.agreed
    }
}

#[derive(Default, Drop)]
pub(crate) struct Score {
    pub(crate) expected: Count,
    pub(crate) lines: Count,
    pub(crate) statements: Count,
    pub(crate) runs: Count,
    pub(crate) figures: u64,
    pub(crate) draws: Count,
    pub(crate) shares: Count,
    pub(crate) settlements: Count,
    // how often each refusal was met, by its number in the register
    met: [u64; 24],
}

impl Score {
    // Counts a refusal that both sides gave.
    pub(crate) fn meet(&mut self, number: u64) {
        if let Some(times) = self.met.get_mut(number as usize) {
            *times = times.saturating_add(1);
        }
    }

    // Prints which refusals were met, and answers whether all were.
    fn show_met(&self, rt: &HostRuntime) -> anyhow::Result<bool> {
        print!(rt; "refusals met:")?;
        for (number, times) in self.met.iter().enumerate() {
            if number > 0 && *times > 0 {
                print!(rt; " {number}")?;
            }
        }
        println!(rt; "")?;
        Ok(self.met.iter().skip(1).all(|times| *times > 0))
    }

    // Prints all counts; a disagreement, or a refusal that was never met, is an error.
    pub(crate) fn show(&self, rt: &HostRuntime) -> anyhow::Result<()> {
        self.expected.show(rt, "answers known beforehand")?;
        self.lines.show(rt, "tender lines")?;
        self.statements.show(rt, "statements")?;
        self.runs.show(rt, "runs call by call")?;
        let figures = self.figures;
        println!(rt; "figures in those runs: {figures}")?;
        self.draws.show(rt, "draws")?;
        self.shares.show(rt, "sharings")?;
        self.settlements.show(rt, "settlements")?;
        if !self.show_met(rt)? {
            return Err(anyhow!("a refusal was never met"));
        }
        if self.differs() {
            return Err(anyhow!("product and reference do not agree"));
        }
        Ok(())
    }

    // Whether something did not agree.
    fn differs(&self) -> bool {
        let counts = [
            self.expected,
            self.lines,
            self.statements,
            self.runs,
            self.draws,
            self.shares,
            self.settlements,
        ];
        counts.iter().any(|count| count.differs())
    }
}
