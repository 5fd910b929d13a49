//! Which trees the numbers of a chain make up, so that the next number's jump is told in O(1).

ghost use Rattle.std.specs.Prelude.{◌≡◌, ℕ, ◌+◌, ◌*◌, ◌%◌, ◌^◌, ◌<◌, ◌≤◌, ◌==◌, false};
ghost use Rattle.s4_arena.specs.Forests.{IsForest};
ghost use Rattle.s4_arena.specs.Spans.{span_of};

/// The trees that the numbers so far make up, side by side, the greatest first. A bit is set for each,
/// the lowest for the last: 2 ^ k stands for 2 ^ (k + 1) - 1 numbers there, and else for 2 ^ k - 1.
#[derive(Clone, Copy)]
pub struct Forest {
    pub(crate) bits: usize,
}

impl Forest {
    /// That of no number.
    pub(crate) fn new() -> Forest
        ensures { result ≡ record { bits = 0 } }
    {
        Forest { bits: 0 }
    }

    // The bits of all trees but the last.
    fn earlier(self) -> usize
        ensures within { result ≤ self.bits }
        ensures none { self.bits ≡ 0 → result ≡ 0 }
        ensures some { (h q : ℕ) → self.bits ≡ (2 * q + 1) * 2 ^ h → result ≡ 2 * q * 2 ^ h }
    {
        self.bits & self.bits.wrapping_sub(1)
    }

    // The bit of the last tree.
    fn last(self) -> usize
        ensures none { self.bits ≡ 0 → result ≡ 0 }
        ensures some { (h q : ℕ) → self.bits ≡ (2 * q + 1) * 2 ^ h → result ≡ 2 ^ h }
    {
        self.bits - self.earlier()
    }

    // Whether the last two trees are of one size.
    fn has_twins(self) -> bool
        ensures none { self.bits ≡ 0 → result ≡ false }
        ensures some { (h q : ℕ) → self.bits ≡ (2 * q + 1) * 2 ^ h → result ≡ (q % 2 == 1) }
    {
        self.earlier() & (self.last() << 1) != 0
    }

    /// How far back the jump of the next number goes. It goes over two trees of one size, where they
    /// are the last two.
    pub(crate) fn next_span(self) -> usize
        requires { (n : ℕ) × IsForest self n }
        ensures fits { (n : ℕ) → IsForest self n → n + 1 < 2 ^ 64 → result ≡ span_of (n + 1) }
        ensures one { (n : ℕ) → IsForest self n → 2 ^ 64 ≤ n + 1 → result ≡ 1 }
    {
        if self.has_twins() {
            let span = 2 * self.last() - 1;
            return 2 * span + 1;
        }
        1
    }

    /// That of one number more.
    pub(crate) fn grown(self) -> Forest
        requires { (n : ℕ) × IsForest self n }
        ensures { (n : ℕ) → IsForest self n → IsForest result (n + 1) }
    {
        if self.has_twins() {
            let bits = self.earlier();
            return Forest { bits };
        }
        match self.bits.checked_add(self.last()) {
            Some(bits) => Forest { bits: bits + 1 },
            None => self,
        }
    }
}
