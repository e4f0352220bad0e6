// At most 32 bytes.
ghost use Rattle.std.specs.Prelude.{◌≡◌, ◌≤◌, ◌++◌, ◌∷◌, [], length, nat_lt, if◌then◌else◌};

use arrayvec::ArrayVec;
use std::marker::Model;

/// At most 32 bytes, as many as an instruction may have. Contracts see it as a list.
#[derive(Drop)]
pub struct ShortBytes {
    held: ArrayVec<u8, 32>,
}

impl Model for ShortBytes {
    ghost use Rattle.std.specs.Prelude.{ℕ, List};

    ghost Value = { List ℕ };

    ghost view = { λ s. s.held.items };
}

impl ShortBytes {
    /// No bytes.
    pub fn new() -> ShortBytes
        ensures { result ≡ [] }
    {
        ShortBytes {
            held: ArrayVec::new(),
        }
    }

    /// The bytes.
    pub fn as_slice(&self) -> &[u8]
        ensures bytes { result.now ≡ self.now }
        ensures few { length result.now ≤ 32 }
    {
        self.held.as_slice()
    }

    /// Appends the byte, and answers true, or changes nothing, and answers false, exactly where 32 bytes are there.
    pub fn push(&mut self, byte: u8) -> bool
        ensures added { self.new ≡ (if result then self.old ++ byte ∷ [] else self.old) }
        ensures room { result ≡ nat_lt (length self.old) 32 }
    {
        self.held.try_push(byte).is_ok()
    }
}
