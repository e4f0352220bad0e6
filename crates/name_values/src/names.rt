// The values of an arm's names.
ghost use Rattle.std.specs.Prelude.{◌≡◌, All, IfOk};
ghost use Rattle.std.specs.List.{AllZip};
ghost use Rattle.token_bits.specs.Tokens.{AreTokens};
ghost use Rattle.match_meaning.specs.Names.{AreNameValues};
ghost use Rattle.match_meaning.specs.Readable.{IsReadableSpec};
ghost use Rattle.instance_reading.specs.Plans.{ArePlansOf};
ghost use Rattle.name_values.specs.Values.{entries_at, IsBodyChoice, IsReadAs, AreOnlyNameValues};

use crate::entries::{instances_of, name_value};
use crate::whole::whole_values;
use instance_reading::{Place, Plans, Scratch};
use pattern_normal::Spot;
use sled_base::NoMemory;
use sled_model::{Arm, Instance, Name, OperandList};
use sqlite_items::Items;
use std::alloc::Global;

/// The values of the arm's names in a result at the place that binds what the spots say. Each choice among them is of a result of its
/// constructor's body.
pub fn values(
    alloc: Global,
    plans: &Plans,
    scratch: &mut Scratch,
    place: &Place<'_>,
    arm: &Arm,
    spots: &[Spot],
) -> Result<OperandList, NoMemory>
    requires readable { IsReadableSpec place.now.spec.now }
    requires plans { ArePlansOf place.now.spec.now plans.now }
    requires results { All (IsBodyChoice place.now.spec.now) (entries_at place.now spots.now) }
    ensures { IfOk result (AreOnlyNameValues place.now.spec.now place.now.location (entries_at place.now spots.now) arm.now.names) }
{
    // Read so that its range is known.
    let _location = place.location;
    let names = arm.names.as_slice();
    match whole_values(alloc, plans, scratch, place, names, spots)? {
        Some(values) => Ok(values),
        None => named_values(alloc, plans, scratch, place, names, spots),
    }
}

/// The same of any names.
fn named_values(
    alloc: Global,
    plans: &Plans,
    scratch: &mut Scratch,
    place: &Place<'_>,
    names: &[Name],
    spots: &[Spot],
) -> Result<OperandList, NoMemory>
    requires readable { IsReadableSpec place.now.spec.now }
    requires plans { ArePlansOf place.now.spec.now plans.now }
    requires results { All (IsBodyChoice place.now.spec.now) (entries_at place.now spots.now) }
    ensures { IfOk result (AreNameValues place.now.spec.now place.now.location (entries_at place.now spots.now) 0 names.now) }
{
    let instances = instances_of(alloc, plans, scratch, place, spots)?;
    values_by(alloc, place, names, spots, instances.as_slice())
}

/// The same, where the choices mean these instances.
fn values_by(
    alloc: Global,
    place: &Place<'_>,
    names: &[Name],
    spots: &[Spot],
    instances: &[Option<Instance>],
) -> Result<OperandList, NoMemory>
    requires tokens { AreTokens place.now.spec.now.tokens }
    requires read { AllZip (IsReadAs place.now.spec.now place.now.location) (entries_at place.now spots.now) instances.now }
    ensures { IfOk result (AreNameValues place.now.spec.now place.now.location (entries_at place.now spots.now) 0 names.now) }
{
    let mut values = Items::new(alloc);
    for (k, name) in names.iter().enumerate() {
        let name = name.as_slice();
        values.push(name_value(alloc, place, name, k, spots, instances)?)?;
    }
    Ok(values)
}
