// Results of arms whose names are the operands of one instance, in order: so are all arms of `match all`.
ghost use Rattle.std.specs.Prelude.{◌≡◌, true, All, IfOk, IfSome, length};
ghost use Rattle.match_meaning.specs.Names.{AreNameValues};
ghost use Rattle.match_meaning.specs.Readable.{IsReadableSpec};
ghost use Rattle.instance_reading.specs.Plans.{ArePlansOf};
ghost use Rattle.name_values.specs.Arguments.{are_names_from, is_name as is_name_of};
ghost use Rattle.name_values.specs.Values.{entries_at, IsBodyChoice};

use instance_reading::{Place, Plans, Scratch, instance_of};
use pattern_normal::Spot;
use sled_base::NoMemory;
use sled_model::{Argument, Name, OperandList};
use std::alloc::Global;

/// Whether the arguments are the names from number 0 on, in order.
fn are_names_in_order(arguments: &[Argument]) -> bool
    ensures { result ≡ are_names_from 0 arguments.now }
{
    for (k, argument) in arguments.iter().enumerate() {
        if !is_name(argument, k) {
            return false;
        }
    }
    true
}

/// Whether the argument is the name of this number.
fn is_name(argument: &Argument, k: usize) -> bool
    ensures { result ≡ is_name_of k argument.now }
{
    match argument {
        Argument::Name(j) => *j as usize == k,
        Argument::Any => false,
        Argument::Inner(_) => false,
    }
}

/// The operands of the instance that the spots mean, where they are one choice whose arguments are the names in order, and there are as
/// many: those operands are the values of the names, and none of them is copied.
pub(crate) fn whole_values(
    alloc: Global,
    plans: &Plans,
    scratch: &mut Scratch,
    place: &Place<'_>,
    names: &[Name],
    spots: &[Spot],
) -> Result<Option<OperandList>, NoMemory>
    requires readable { IsReadableSpec place.now.spec.now }
    requires plans { ArePlansOf place.now.spec.now plans.now }
    requires results { All (IsBodyChoice place.now.spec.now) (entries_at place.now spots.now) }
    ensures { IfOk result (λ found. IfSome found (AreNameValues place.now.spec.now place.now.location (entries_at place.now spots.now) 0 names.now)) }
{
    if spots.len() != 1 {
        return Ok(None);
    }
    let Spot::Choice {
        constructor,
        inner,
        arguments,
    } = &spots[0]
    else {
        return Ok(None);
    };
    if !are_names_in_order(arguments.as_slice()) {
        return Ok(None);
    }
    let inner = inner.entries.as_slice();
    let instance = instance_of(alloc, plans, scratch, place, *constructor, inner)?;
    if instance.operands.len() != names.len() || arguments.len() != names.len() {
        return Ok(None);
    }
    Ok(Some(instance.operands))
}
