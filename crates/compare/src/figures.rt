// What one side answers, figure by figure.
use std::alloc::{AllocError, Global};
use std::fmt;

// A refusal of either side.
pub(crate) trait Numbered {
    // Its number in the register.
    fn figure(self) -> u64;
}

impl Numbered for reference::Refusal {
    fn figure(self) -> u64 {
        u64::from(self.number())
    }
}

impl Numbered for sharing::Refusal {
    fn figure(self) -> u64 {
        u64::from(self.number())
    }
}

impl Numbered for stages::Refusal {
    fn figure(self) -> u64 {
        u64::from(self.number())
    }
}

// One that hands something back.
impl<T: Drop> Numbered for (stages::Refusal, T) {
    fn figure(self) -> u64 {
        u64::from(self.0.number())
    }
}

#[derive(PartialEq, Eq, Drop)]
pub(crate) struct Figures {
    all: Vec<u64>,
}

impl Figures {
    pub(crate) fn new(heap: Global) -> Figures {
        Figures {
            all: Vec::new(heap),
        }
    }

    pub(crate) fn as_slice(&self) -> &[u64] {
        self.all.as_slice()
    }

    // Adds the number of the refusal, or 0, and answers what was not refused.
    pub(crate) fn answer<T: Drop, R: Numbered>(
        &mut self,
        answer: Result<T, R>,
    ) -> Result<Option<T>, AllocError> {
        match answer {
            Ok(value) => {
                self.all.push(0)?;
                Ok(Some(value))
            }
            Err(refusal) => {
                self.all.push(refusal.figure())?;
                Ok(None)
            }
        }
    }

    // Adds a standing offer.
    pub(crate) fn offer(
        &mut self,
        number: u64,
        member: [u8; 4],
        account: u32,
        price: u32,
        lots: u32,
    ) -> Result<(), AllocError> {
        self.all.extend_from_slice(&[
            number,
            u64::from(u32::from_be_bytes(member)),
            u64::from(account),
            u64::from(price),
            u64::from(lots),
        ])
    }

    // Adds what is allotted as a whole.
    pub(crate) fn allotted(
        &mut self,
        due: u64,
        price: Option<u32>,
        receipts: u64,
        fee: u64,
    ) -> Result<(), AllocError> {
        let price = price.map_or(u64::MAX, u64::from);
        self.all.extend_from_slice(&[due, price, receipts, fee])
    }

    // Adds a buyer's row.
    pub(crate) fn row(&mut self, lots: u32, payment: u64, billed: bool) -> Result<(), AllocError> {
        self.all
            .extend_from_slice(&[u64::from(lots), payment, u64::from(billed)])
    }

    // Adds lots.
    pub(crate) fn lots(&mut self, lots: &[u32]) -> Result<(), AllocError> {
        for lots in lots {
            self.all.push(u64::from(*lots))?;
        }
        Ok(())
    }

    // Adds a draw's rank of each number from 0 to 513, and of the largest.
    pub(crate) fn ranks<F: FnMut(u16) -> u16>(&mut self, mut rank: F) -> Result<(), AllocError>
        requires { F.IsAlwaysCallable rank }
    {
        for number in 0..514u16 {
            self.all.push(u64::from(rank(number)))?;
        }
        self.all.push(u64::from(rank(65_535)))?;
        Ok(())
    }
}

impl fmt::Display for Figures {
    fn fmt<W: fmt::Write>(&self, f: &mut fmt::Formatter<W>) -> fmt::Result {
        for figure in self.all.iter() {
            write!(f, " {figure}")?;
        }
        Ok(())
    }
}
