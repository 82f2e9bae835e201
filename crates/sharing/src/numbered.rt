ghost use Rattle.std.specs.Prelude.{◌≡◌, ℕ};

// What has a number.
pub trait Numbered {
    ghost numbered: { Self → ℕ };

    fn number(&self) -> u16
        ensures { result ≡ numbered self.now };
}

impl Numbered for u16 {
    ghost numbered = { λ n. n };

    fn number(&self) -> u16 {
        *self
    }
}
