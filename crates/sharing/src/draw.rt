ghost use Rattle.std.specs.Prelude.{◌≡◌, ℕ, min};
ghost use Rattle.sharing.specs.Draws.{Lawful};
ghost use Rattle.sharing.specs.Kept.{Kept};

// A draw gives each number from 0 to 511 a rank; a number above 511 has the rank of 511.
pub trait Draw {
    // The meaning: the rank of each number.
    ghost rank_of: { Self → ℕ → ℕ };

    // The condition that holds of a draw as it is made, and after each call.
    // It carries the law, and what a draw keeps in notes of its own.
    ghost sound: { Self → Type 0 };

    // The law, which each kind of draw gives with its proof.
    ghost lawful: { (d : Self) → sound d → Lawful (rank_of d) };

    // The rank of `number`. Asking alters no rank.
    fn rank(&mut self, number: u16) -> u16
        ensures kept { Kept sound rank_of self.old self.new }
        ensures value { sound self.old → result ≡ rank_of self.old (min number 511) };
}
