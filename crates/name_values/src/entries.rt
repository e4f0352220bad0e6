// What the spots of a result give the names of an arm.
ghost use Rattle.std.specs.Prelude.{◌≡◌, ◌<◌, ◌^◌, All, IfOk, pos, if◌then◌else◌};
ghost use Rattle.std.specs.List.{AllZip};
ghost use Rattle.token_bits.specs.Tokens.{AreTokens};
ghost use Rattle.sled_model.specs.declared.instance.Operand.TheVariants.{Num};
ghost use Rattle.match_meaning.specs.Names.{Gives, IsNameValue};
ghost use Rattle.match_meaning.specs.Readable.{IsReadableSpec};
ghost use Rattle.instance_reading.specs.Plans.{ArePlansOf};
ghost use Rattle.name_values.specs.Values.{entry_at, entries_at, IsBodyChoice, IsReadAs};

use crate::arguments::{argument_value, copy_operand};
use instance_reading::{Place, Plans, Scratch, instance_of};
use pattern_normal::Spot;
use sled_base::NoMemory;
use sled_model::{Instance, Operand, is_named};
use sqlite_items::Items;
use std::alloc::Global;

/// For each spot the instance that it means, where it is a choice.
pub(crate) type Instances = Items<Option<Instance>>;

/// The instances that the choices among the spots mean.
pub(crate) fn instances_of(
    alloc: Global,
    plans: &Plans,
    scratch: &mut Scratch,
    place: &Place<'_>,
    spots: &[Spot],
) -> Result<Instances, NoMemory>
    requires readable { IsReadableSpec place.now.spec.now }
    requires plans { ArePlansOf place.now.spec.now plans.now }
    requires results { All (IsBodyChoice place.now.spec.now) (entries_at place.now spots.now) }
    ensures { IfOk result (AllZip (IsReadAs place.now.spec.now place.now.location) (entries_at place.now spots.now)) }
{
    let mut instances = Items::new(alloc);
    for spot in spots {
        instances.push(spot_instance(alloc, plans, scratch, place, spot)?)?;
    }
    Ok(instances)
}

/// The instance that the spot means, where it is a choice.
fn spot_instance(
    alloc: Global,
    plans: &Plans,
    scratch: &mut Scratch,
    place: &Place<'_>,
    spot: &Spot,
) -> Result<Option<Instance>, NoMemory>
    requires readable { IsReadableSpec place.now.spec.now }
    requires plans { ArePlansOf place.now.spec.now plans.now }
    requires results { IsBodyChoice place.now.spec.now (entry_at place.now spot.now) }
    ensures { IfOk result (IsReadAs place.now.spec.now place.now.location (entry_at place.now spot.now)) }
{
    match spot {
        Spot::Value { .. } => Ok(None),
        Spot::Mark { .. } => Ok(None),
        Spot::Choice {
            constructor,
            inner,
            ..
        } => {
            let inner = inner.entries.as_slice();
            let instance = instance_of(alloc, plans, scratch, place, *constructor, inner)?;
            Ok(Some(instance))
        }
    }
}

/// The value of the arm's name number `k`, which is spelled so: the first that a spot gives, and 0 where none gives one.
pub(crate) fn name_value(
    alloc: Global,
    place: &Place<'_>,
    name: &[u8],
    k: usize,
    spots: &[Spot],
    instances: &[Option<Instance>],
) -> Result<Operand, NoMemory>
    requires tokens { AreTokens place.now.spec.now.tokens }
    requires read { AllZip (IsReadAs place.now.spec.now place.now.location) (entries_at place.now spots.now) instances.now }
    ensures { IfOk result (IsNameValue place.now.spec.now place.now.location name.now k (entries_at place.now spots.now)) }
{
    for (i, spot) in spots.iter().enumerate() {
        let instance = &instances[i];
        if let Some(value) = given(alloc, place, name, k, spot, instance)? {
            return Ok(value);
        }
    }
    Ok(Operand::Num(0))
}

/// What the spot gives that name, where as a choice it means this instance.
fn given(
    alloc: Global,
    place: &Place<'_>,
    name: &[u8],
    k: usize,
    spot: &Spot,
    instance: &Option<Instance>,
) -> Result<Option<Operand>, NoMemory>
    requires tokens { AreTokens place.now.spec.now.tokens }
    requires read { IsReadAs place.now.spec.now place.now.location (entry_at place.now spot.now) instance.now }
    ensures { IfOk result (Gives place.now.spec.now place.now.location name.now k (entry_at place.now spot.now)) }
{
    match spot {
        Spot::Value { field, at } => {
            let value = place
                .spec
                .tokens
                .field_value(*field, place.window, *at as usize)
                .unwrap_or(0);
            Ok(number_if(is_named(place.spec, *field, name), u64::from(value)))
        }
        Spot::Mark { label, at } => Ok(number_if(
            *label as usize == k,
            u64::from(place.location) + u64::from(*at),
        )),
        Spot::Choice { arguments, .. } => {
            let Some(instance) = instance else {
                unreachable!()
            };
            match argument_value(k, arguments.as_slice(), instance.operands.as_slice()) {
                Some(operand) => Ok(Some(copy_operand(alloc, operand)?)),
                None => Ok(None),
            }
        }
    }
}

/// The number, where it is given.
fn number_if(is_given: bool, number: u64) -> Option<Operand>
    requires { number < 2 ^ 33 }
    ensures { result ≡ (if is_given then Some (Num (pos number)) else None) }
{
    if is_given {
        Some(Operand::Num(number as i64))
    } else {
        None
    }
}
