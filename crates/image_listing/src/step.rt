// One place of a listing.
ghost use Rattle.std.specs.Prelude.{◌≡◌, ◌<◌, ◌≤◌, ◌^◌, ℕ, List, length, take, IfOk};
ghost use Rattle.image_listing.specs.Listing.{Taking};
ghost use Rattle.image_listing.specs.Places.{IsStep, IsWithin};

use crate::line::write_line;
use crate::{Decoder, Stop};
use sled_base::NoMemory;
use std::alloc::Global;

/// The end of the addresses.
const END: u64 = 4_294_967_296;

/// The line of a place, and memory that each place uses again.
#[derive(Drop)]
pub(crate) struct Line {
    pub text: Vec<u8>,
    words: Vec<u8>,
    number: String,
}

impl Line {
    pub fn new(alloc: Global) -> Line {
        Line {
            text: Vec::new(alloc),
            words: Vec::new(alloc),
            number: String::new(alloc),
        }
    }

    /// Makes the line of the place in front of the window, and answers how many bytes it takes, or why the listing stops there.
    pub fn set_place<D: Decoder>(
        &mut self,
        alloc: Global,
        decoder: &mut D,
        place: u64,
        window: &[u8],
    ) -> Result<Result<usize, Stop>, NoMemory>
        requires stands { (taking : Taking) × D.is_taking decoder.old taking }
        requires some { 0 < length window.now }
        requires short { length window.now ≤ 32 }
        requires low { place ≤ 2 ^ 32 }
        ensures same { (taking : Taking) → D.is_taking decoder.old taking → D.is_taking decoder.new taking }
        ensures within { IfOk result (λ step. IsWithin place window.now step) }
        ensures step { IfOk result (λ step. (taking : Taking) (left : List ℕ) → D.is_taking decoder.old taking → window.now ≡ take 32 left → IsStep taking place left self.new.text.items step) }
    {
        if place >= END {
            return Ok(Err(Stop::AddressEnd(place)));
        }
        let Some(count) = decoder.take(alloc, place as u32, window, &mut self.words)? else {
            return Ok(Err(Stop::NoMatch(place)));
        };
        if END - place < count as u64 {
            return Ok(Err(Stop::AddressEnd(place)));
        }
        let bytes = &window[..count];
        write_line(&mut self.text, &mut self.number, place, bytes, &self.words)?;
        Ok(Ok(count))
    }
}
