// Which alternatives of a constructor's body the arguments of an application admit.
ghost use Rattle.std.specs.Prelude.{◌≡◌, ◌++◌, ◌==◌, [], map, filter, position, slice_get, option_copied, option_map, Option, IfOk, OnOk};
ghost use Rattle.std.specs.List.{flat_map};
ghost use Rattle.sled_model.specs.Results.{operands_in as operands_in_of, choice_of as choice_in, argument_admits as argument_admits_of, application_admits as application_admits_of};
ghost use Rattle.sled_model.specs.Admitted.{list_admits};
ghost use Rattle.pattern_normal.specs.Skeletons.{read_spot, read_entries, is_choice_spot};
ghost use Rattle.pattern_normal.specs.Surroundings.{around, known_of};
ghost use Rattle.pattern_normal.specs.Alternatives.{choice_alternative, is_admitted};

use crate::Spot;
use crate::alternative::{Alternative, as_choice};
use crate::context::BodyContext;
use sled_base::NoMemory;
use sled_model::{Argument, Constructor, ConstructorId, Pattern};
use sqlite_items::{Items, at as item_at};
use std::alloc::Global;

/// Appends the numbers of the operands that stand in the pattern, from left to right.
#[tactic(auto, using(crate::proofs::Admitting::operand_laws))]
#[cycle(operands_in)]
fn push_operands(found: &mut Items<u32>, pattern: &Pattern) -> Result<(), NoMemory>
    ensures { OnOk result (found.new ≡ found.old ++ operands_in_of pattern.now) }
{
    match pattern {
        Pattern::Operand(k) => {
            found.push(*k)?;
            Ok(())
        }
        Pattern::Label(_, inner) => push_operands(found, inner.get()),
        Pattern::Both(parts) => push_all_operands(found, parts.as_slice()),
        Pattern::Either(parts) => push_all_operands(found, parts.as_slice()),
        Pattern::Chain(parts) => push_all_operands(found, parts.as_slice()),
        Pattern::Loose(inner) => push_operands(found, inner.get()),
        Pattern::Token(_) => Ok(()),
        Pattern::Limit { .. } => Ok(()),
        Pattern::Bind(_) => Ok(()),
        Pattern::Apply { .. } => Ok(()),
        Pattern::Empty => Ok(()),
    }
}

#[cycle(operands_in)]
fn push_all_operands(found: &mut Items<u32>, parts: &[Pattern]) -> Result<(), NoMemory>
    ensures { OnOk result (found.new ≡ found.old ++ flat_map operands_in_of parts.now) }
{
    for part in parts {
        push_operands(found, part)?;
    }
    Ok(())
}

/// The choice of this number, among the spots that are choices.
fn nth_choice(spots: &[Spot], number: usize) -> Option<&Spot>
    ensures { option_copied result ≡ slice_get (filter is_choice_spot spots.now) number }
{
    let mut left = number;
    for spot in spots {
        if matches!(spot, Spot::Choice { .. }) {
            if left == 0 {
                return Some(spot);
            }
            left -= 1;
        }
    }
    None
}

/// Where the number stands first.
fn place_of(operands: &[u32], operand: usize) -> Option<usize>
    ensures { result ≡ position (λ j. j == operand) operands.now }
{
    operands.iter().position(|k| *k as usize == operand)
}

/// The choice for the operand of this number, among what the constructor's body binds.
fn choice_of<'a>(
    alloc: Global,
    near: &BodyContext<'_>,
    constructor: &Constructor,
    inner: &'a [Spot],
    operand: usize,
) -> Result<Option<&'a Spot>, NoMemory>
    ensures { IfOk result (λ choice. option_map (read_spot near.now.tokens.now []) (option_copied choice) ≡ choice_in constructor.now (read_entries near.now.tokens.now [] inner.now) operand) }
{
    let mut operands = Items::new(alloc);
    push_operands(&mut operands, &constructor.body)?;
    match place_of(operands.as_slice(), operand) {
        None => Ok(None),
        Some(place) => Ok(nth_choice(inner, place)),
    }
}

/// Whether the arguments of the constructor admit what its body binds, which is no matter of the values.
#[cycle(admitted)]
fn arguments_admit(
    alloc: Global,
    arguments: &[Argument],
    near: &BodyContext<'_>,
    constructor: &Constructor,
    inner: &[Spot],
) -> Result<bool, NoMemory>
    ensures { IfOk result (λ admitted. admitted ≡ list_admits (known_of (around near.now)) constructor.now (read_entries near.now.tokens.now [] inner.now) 0 arguments.now) }
{
    for (operand, argument) in arguments.iter().enumerate() {
        let choice = choice_of(alloc, near, constructor, inner, operand)?;
        if !argument_admits(alloc, argument, near, choice)? {
            return Ok(false);
        }
    }
    Ok(true)
}

#[cycle(admitted)]
fn argument_admits(
    alloc: Global,
    argument: &Argument,
    near: &BodyContext<'_>,
    choice: Option<&Spot>,
) -> Result<bool, NoMemory>
    ensures { IfOk result (λ admitted. admitted ≡ argument_admits_of (known_of (around near.now)) (option_map (read_spot near.now.tokens.now []) (option_copied choice.entry)) argument.now) }
{
    match argument {
        Argument::Any => Ok(true),
        Argument::Name(_) => Ok(true),
        Argument::Inner(pattern) => application_admits(alloc, pattern.get(), near, choice),
    }
}

#[cycle(admitted)]
fn application_admits(
    alloc: Global,
    pattern: &Pattern,
    near: &BodyContext<'_>,
    choice: Option<&Spot>,
) -> Result<bool, NoMemory>
    ensures { IfOk result (λ admitted. admitted ≡ application_admits_of (known_of (around near.now)) (option_map (read_spot near.now.tokens.now []) (option_copied choice.entry)) pattern.now) }
{
    let Pattern::Apply {
        constructor,
        arguments,
    } = pattern
    else {
        return Ok(false);
    };
    let Some(taken) = choice else {
        return Ok(false);
    };
    let Spot::Choice {
        constructor: chosen,
        inner,
        ..
    } = taken
    else {
        return Ok(false);
    };
    if chosen.0 != constructor.0 {
        return Ok(false);
    }
    match item_at(near.constructors, constructor.0 as usize) {
        None => Ok(true),
        Some(known) => arguments_admit(
            alloc,
            arguments.as_slice(),
            near,
            known,
            inner.entries.as_slice(),
        ),
    }
}

/// Those of the alternatives that the arguments of the constructor admit, each as its choice.
pub(crate) fn admitted_choices(
    alloc: Global,
    near: &BodyContext<'_>,
    k: ConstructorId,
    constructor: &Constructor,
    arguments: &[Argument],
    bodies: &[Alternative],
) -> Result<Items<Alternative>, NoMemory>
    ensures { IfOk result (λ choices. choices ≡ map (choice_alternative k.0 arguments.now) (filter (is_admitted (around near.now) constructor.now arguments.now) bodies.now)) }
{
    let mut choices = Items::new(alloc);
    for body in bodies {
        if arguments_admit(alloc, arguments, near, constructor, body.spots.as_slice())? {
            choices.push(as_choice(alloc, k.0, arguments, body)?)?;
        }
    }
    Ok(choices)
}
