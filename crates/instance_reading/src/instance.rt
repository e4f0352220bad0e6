// The instance that a result of a body means.
ghost use Rattle.std.specs.Prelude.{IfOk};
ghost use Rattle.pattern_normal.specs.Skeletons.{read_entries};
ghost use Rattle.match_meaning.specs.Readable.{IsReadableSpec};
ghost use Rattle.instance_reading.specs.Plans.{ArePlansOf};
ghost use Rattle.instance_reading.specs.Reading.{IsBodyResult, IsOnlyMeant};

use crate::bound::Bound;
use crate::place::Place;
use crate::plans::Plans;
use crate::scratch::Scratch;
use pattern_normal::Spot;
use sled_base::NoMemory;
use sled_model::{ConstructorId, Instance};
use std::alloc::Global;

/// The instance that the spots mean at the place, where a result of the constructor's body bound what is read there by them: the only one.
/// The description admits it, and no operand of it, at any level, is the address of a label. `NoMemory` where there is no memory for it.
pub fn instance_of(
    alloc: Global,
    plans: &Plans,
    scratch: &mut Scratch,
    place: &Place<'_>,
    constructor: ConstructorId,
    spots: &[Spot],
) -> Result<Instance, NoMemory>
    requires readable { IsReadableSpec place.now.spec.now }
    requires plans { ArePlansOf place.now.spec.now plans.now }
    requires result_of_body { IsBodyResult place.now.spec.now constructor (read_entries place.now.spec.now.tokens place.now.window.now spots.now) }
    ensures { IfOk result (IsOnlyMeant place.now.spec.now place.now.location constructor (read_entries place.now.spec.now.tokens place.now.window.now spots.now)) }
{
    // Read so that its range is known.
    let _location = place.location;
    let bound = Bound {
        place: *place,
        plans,
        constructor,
        spots,
    };
    bound.instance(alloc, scratch)
}
