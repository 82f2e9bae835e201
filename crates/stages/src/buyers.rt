// What is asked of a list of buyers.
ghost use Rattle.std.specs.Prelude.{◌≡◌, ◌≤◌, length};
ghost use Rattle.stages.specs.Buyers.{has_account, account_twice, all_have_lots, all_within, demanded, buyers_fit, lots_fit, as_filed};

use super::kind::Kind;
use super::particulars::Particulars;
use super::terms::Buyer;

// Answers whether one of the buyers has the account.
pub fn has_account(buyers: &[Buyer], account: u32) -> bool
    ensures { result ≡ has_account account buyers.now }
{
    buyers.iter().any(|buyer| buyer.account == account)
}

// Answers whether two of the buyers have one account.
fn has_account_twice(buyers: &[Buyer]) -> bool
    ensures { result ≡ account_twice buyers.now }
{
    let mut rest = buyers;
    while let Some((first, others)) = rest.split_first() {
        if has_account(others, first.account) {
            return true;
        }
        rest = others;
    }
    false
}

// Answers whether each buyer asks for a lot or more.
fn all_have_lots(buyers: &[Buyer]) -> bool
    ensures { result ≡ all_have_lots buyers.now }
{
    buyers.iter().all(|buyer| buyer.lots >= 1)
}

// Answers whether each buyer asks for 1 to 1,000,000 lots.
fn all_within(buyers: &[Buyer]) -> bool
    ensures { result ≡ all_within buyers.now }
{
    buyers
        .iter()
        .all(|buyer| 1 <= buyer.lots && buyer.lots <= 1_000_000)
}

// Answers how many lots the buyers ask for together.
pub(crate) fn total(buyers: &[Buyer]) -> u64
    requires { length buyers.now ≤ 8 }
    ensures { result ≡ demanded buyers.now }
{
    buyers.iter().map(|buyer| u64::from(buyer.lots)).sum()
}

// Answers whether a tender of the kind may have so many buyers, no two of one account.
pub(crate) fn buyers_fit(kind: Kind, buyers: &[Buyer]) -> bool
    ensures { result ≡ buyers_fit kind buyers.now }
{
    let count = buyers.len();
    1 <= count && count <= kind.row().buyers && !has_account_twice(buyers)
}

// Answers whether each buyer's lots, and those of all, are from 1 to 1,000,000.
pub(crate) fn lots_fit(buyers: &[Buyer]) -> bool
    requires { length buyers.now ≤ 8 }
    ensures { result ≡ lots_fit buyers.now }
{
    all_within(buyers) && total(buyers) <= 1_000_000
}

impl Particulars {
    // Answers whether the buyers are as many as were filed, ask for as many lots together, and each for one or more.
    pub fn as_filed(&self, buyers: &[Buyer]) -> bool
        ensures { result ≡ as_filed self.now buyers.now }
    {
        buyers.len() == self.buyers
            && total(buyers) == u64::from(self.demand)
            && all_have_lots(buyers)
    }
}
