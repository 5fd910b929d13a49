//! Room that is there.

ghost use Rattle.std.specs.Prelude.{◌+◌, ◌++◌, ◌≡◌, ◌≤◌, length, ℕ, List};

use bytes::BytesMut;

/// Bytes with room for more behind them. What is put there takes no memory, so nothing is refused.
pub trait Room {
    /// The bytes that are there.
    ghost items: { Self → List ℕ };

    /// For how many more there is room at least.
    ghost spare: { Self → ℕ };

    /// Adds these bytes.
    fn put(&mut self, bytes: &[u8])
        requires { length bytes.now ≤ spare self.old }
        ensures added { items self.new ≡ items self.old ++ bytes.now }
        ensures left { spare self.old ≤ spare self.new + length bytes.now };
}

impl Room for Vec<u8> {
    ghost use Rattle.std.specs.Prelude.{◌-◌, vec_capacity, vec_len};

    ghost items = { λ bytes. bytes.items };

    ghost spare = { λ bytes. vec_capacity bytes - vec_len bytes };

    fn put(&mut self, bytes: &[u8]) {
        if self.extend_from_slice(bytes).is_err() {
            unreachable!();
        }
    }
}

impl Room for BytesMut {
    ghost items = { λ bytes. bytes.items };

    ghost spare = { λ bytes. bytes.spare };

    fn put(&mut self, bytes: &[u8]) {
        self.extend_reserved(bytes);
    }
}
