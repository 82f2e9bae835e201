// The order of the records of a list.
ghost use Rattle.std.specs.Prelude.{◌≡◌, Bool, true, false, not};
ghost use Rattle.ordered.specs.Ranks.{same_rank};

// An order in which any two records can be compared. Different records may have the same rank.
pub trait Order {
    // `before x y`: x may stand before y.
    ghost before: { Self → Self → Bool };

    // Answers whether the record may stand before the other.
    fn at_or_before(&self, other: &Self) -> bool
        ensures { result ≡ before self.now other.now };

    // Of two records one may stand before the other.
    ghost total: { (x y : Self) → before x y ≡ false → before y x ≡ true };

    // A record may stand before all that a later one may stand before.
    ghost transitive: { (x y z : Self) → before x y ≡ true → before y z ≡ true → before x z ≡ true };
}

// Answers whether x comes strictly ahead of y, which may not stand before it.
pub(crate) fn ahead<T: Order>(x: &T, y: &T) -> bool
    ensures { result ≡ not (T.before y.now x.now) }
{
    !y.at_or_before(x)
}

// Answers whether each of the two records may stand before the other.
pub(crate) fn same_rank<T: Order>(x: &T, y: &T) -> bool
    ensures { result ≡ same_rank T.before x.now y.now }
{
    x.at_or_before(y) && y.at_or_before(x)
}
