// Cases of bytes under masks.
ghost use Rattle.std.specs.Prelude.{◌≡◌, ◌+◌, ◌<◌, ◌≤◌, ◌↔◌, max, List, ℕ, length, IsTrue, IfSome, IfNone, OnSome};
ghost use Rattle.bit_cases.specs.Bits.{Meets, MeetsAt, AreUnder, IsUnderMask, IsShort, SameUnderBoth, IsMoved};

/// The windows that have at least `len` bytes, and in each byte the bits of `value` where `mask` has ones. No bit of the
/// value is outside the mask, and the mask has none from byte `len` on.
#[derive(Clone, Copy)]
pub struct ByteCase {
    pub mask: [u8; 32],
    pub value: [u8; 32],
    pub len: u8,
    ghost at_most_32: { len ≤ 32 },
    ghost under_mask: { IsUnderMask mask value },
    ghost short: { IsShort mask len },
}

impl ByteCase {
    /// Every window with at least `len` bytes.
    pub fn any(len: u8) -> ByteCase
        requires { len ≤ 32 }
        ensures len { result.len ≡ len }
        ensures meets { (window : List ℕ) → Meets result.mask result.value result.len window ↔ (len ≤ length window) }
    {
        ByteCase {
            mask: [0; 32],
            value: [0; 32],
            len,
        }
    }

    /// Every window that has these bits from byte `offset` on, and all of the bytes that are asked for.
    pub fn at(offset: u8, mask: &[u8], value: &[u8]) -> ByteCase
        requires fits { offset + length mask.now ≤ 32 }
        requires lengths { length value.now ≡ length mask.now }
        requires under { AreUnder mask.now value.now }
        ensures len { result.len ≡ offset + length mask.now }
        ensures meets { (window : List ℕ) → Meets result.mask result.value result.len window ↔ MeetsAt offset mask.now value.now window }
    {
        ByteCase {
            mask: moved(offset, mask),
            value: moved(offset, value),
            len: offset + mask.len() as u8,
        }
    }

    /// Whether the window has at least `len` bytes that agree with the value under the mask.
    pub fn meets(&self, window: &[u8]) -> bool
        ensures { IsTrue result ↔ Meets self.now.mask self.now.value self.now.len window.now }
    {
        let len = self.len as usize;
        if window.len() < len {
            return false;
        }
        for k in 0..len {
            if window[k] & self.mask[k] != self.value[k] {
                return false;
            }
        }
        true
    }

    /// The case that is met by exactly the windows that meet both. None exactly where the two ask for different bits.
    pub fn join(&self, other: &ByteCase) -> Option<ByteCase>
        ensures met { IfSome result (λ c. (window : List ℕ) → Meets c.mask c.value c.len window
            ↔ (Meets self.now.mask self.now.value self.now.len window × Meets other.now.mask other.now.value other.now.len window)) }
        ensures len { IfSome result (λ c. c.len ≡ max self.now.len other.now.len) }
        ensures joined { OnSome result ((k : ℕ) → k < 32 → SameUnderBoth self.now.mask self.now.value other.now.mask other.now.value k) }
        ensures apart { IfNone result ((k : ℕ) × (k < 32) × ¬ SameUnderBoth self.now.mask self.now.value other.now.mask other.now.value k) }
    {
        let mut mask = self.mask;
        let mut value = self.value;
        for k in 0..32 {
            if self.value[k] & other.mask[k] != other.value[k] & self.mask[k] {
                return None;
            }
            mask[k] |= other.mask[k];
            value[k] |= other.value[k];
        }
        Some(ByteCase {
            mask,
            value,
            len: self.len.max(other.len),
        })
    }
}

// the bytes from `offset` on, among zeros
fn moved(offset: u8, bytes: &[u8]) -> [u8; 32]
    requires { offset + length bytes.now ≤ 32 }
    ensures { IsMoved offset bytes.now result }
{
    let mut all = [0; 32];
    for k in 0..bytes.len() {
        all[offset as usize + k] = bytes[k];
    }
    all
}
