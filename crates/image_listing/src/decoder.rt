// What a listing asks of a decoder.
ghost use Rattle.std.specs.Prelude.{◌≡◌, ◌<◌, ◌≤◌, List, ℕ, length, take, IfOk, IfSome, option_map};
ghost use Rattle.image_listing.specs.Listing.{Taking, placed};

use sled_base::NoMemory;
use std::alloc::Global;

/// What decides the places of an image.
pub trait Decoder {
    /// The takings that the decoder stands for: what they say of a place and the bytes that are left there, it answers.
    ghost is_taking: { Self → Taking → Type 0 };

    /// How many bytes the place in front of the window takes, one at least and no more than the window has, or None where nothing stands
    /// there; then nothing is said of `words`, and else it holds the text of the place. The window is the first 32 bytes that are left
    /// there, or all of them where they are fewer. `NoMemory` where there is no memory for the text.
    fn take(
        &mut self,
        alloc: Global,
        place: u32,
        window: &[u8],
        words: &mut Vec<u8>,
    ) -> Result<Option<usize>, NoMemory>
        requires stands { (taking : Taking) × is_taking self.old taking }
        requires some { 0 < length window.now }
        requires short { length window.now ≤ 32 }
        ensures same { (taking : Taking) → is_taking self.old taking → is_taking self.new taking }
        ensures within { IfOk result (λ count. IfSome count (λ n. (0 < n) × (n ≤ length window.now))) }
        ensures taken { IfOk result (λ count. (taking : Taking) (left : List ℕ) → is_taking self.old taking → window.now ≡ take 32 left → placed (taking place left) ≡ option_map (λ n. (n, words.new.items)) count) };
}
