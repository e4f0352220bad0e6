// The listing of an image, from a source into a sink.
ghost use Rattle.std.specs.Prelude.{◌≤◌};
ghost use Rattle.image_listing.specs.Listing.{Taking};
ghost use Rattle.image_listing.specs.Listed.{IsListed};

use crate::step::Line;
use crate::window::Window;
use crate::{Decoder, ListFault, Listed};
use sled_base::{Sink, Source, write_all};
use std::alloc::Global;

/// Lists all bytes of the source, the first of which stands at address `base`, place by place as the decoder says. The line of a place
/// is written before more is read than 64 bytes from that place on. `NoMatch` and `AddressEnd` at the first place that is refused: the
/// lines before it are written. `ReadFault`, only where the source's count rose: the lines are written of the places that the bytes
/// before it decide. `WriteFault`, only where the sink's count rose: a part of the lines is written. `NoMemory`: so are the lines before
/// some place.
pub fn list<D: Decoder, I: Source, O: Sink>(
    alloc: Global,
    decoder: &mut D,
    base: u32,
    source: &mut I,
    sink: &mut O,
) -> Result<Listed, ListFault>
    requires { (taking : Taking) × D.is_taking decoder.old taking }
    ensures listed { (taking : Taking) → D.is_taking decoder.old taking → IsListed taking base (I.left source.old) (I.left source.new)
        (I.faults source.old) (I.faults source.new) (O.contents sink.old) (O.contents sink.new) (O.faults sink.old) (O.faults sink.new) result }
    ensures same { (taking : Taking) → D.is_taking decoder.old taking → D.is_taking decoder.new taking }
    ensures later { I.faults source.old ≤ I.faults source.new }
{
    let mut window = Window::new();
    let mut line = Line::new(alloc);
    let mut places = 0;
    let mut end = u64::from(base);
    loop {
        let Ok(()) = window.fill(source) else {
            return Err(ListFault::ReadFault);
        };
        let front = window.front();
        if front.is_empty() {
            return Ok(Listed { places, end });
        }
        let Ok(step) = line.set_place(alloc, decoder, end, front) else {
            return Err(ListFault::NoMemory);
        };
        let count = match step {
            Ok(count) => count,
            Err(stop) => return Err(ListFault::from(stop)),
        };
        let Ok(()) = write_all(sink, &line.text) else {
            return Err(ListFault::WriteFault);
        };
        window.pass(count);
        places += 1;
        end += count as u64;
    }
}
