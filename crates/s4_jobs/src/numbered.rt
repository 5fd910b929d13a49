//! Jobs with numbers.

ghost use Rattle.std.specs.Prelude.{◌≡◌, ℕ};

/// A job with a number, by which contracts speak of it. Numbers may repeat.
pub trait Numbered {
    ghost numbered: { Self → ℕ };

    fn number(&self) -> u64
        ensures { result ≡ numbered self.now };
}
