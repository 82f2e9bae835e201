// What a payment, or a default, costs beside what is owed. That of a slip for nothing is no charge, and no breach.
#[derive(Clone, Copy, PartialEq, Eq, Debug, Default)]
pub struct Receipt {
    // in cents
    pub charge: u64,
    pub breach: bool,
}
