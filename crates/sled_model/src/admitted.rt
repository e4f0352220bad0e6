// Which results of a constructor's body the arguments of an application admit.
ghost use Rattle.std.specs.Prelude.{◌≡◌, ◌++◌, ◌==◌, filter, position, slice_get, option_copied, Option, IfOk, OnOk};
ghost use Rattle.std.specs.List.{flat_map};
ghost use Rattle.sled_model.specs.Results.{operands_in as operands_in_of, is_choice as is_choice_of, choice_of as choice_in, argument_admits as argument_admits_of, application_admits as application_admits_of};
ghost use Rattle.sled_model.specs.Admitted.{list_admits};
ghost use Rattle.sled_model.specs.PatternContexts.{known_in};

use crate::context::PatternContext;
use crate::{Argument, Constructor, Pattern, RawEntry};
use sled_base::NoMemory;
use sqlite_items::{Items, at as item_at};
use std::alloc::Global;

/// Appends the numbers of the operands that stand in the pattern, from left to right.
#[tactic(auto, using(crate::proofs::AdmittedLaws::operands_in_laws))]
#[cycle(operands_in)]
fn push_operands(found: &mut Items<u32>, pattern: &Pattern) -> Result<(), NoMemory>
    ensures { OnOk result (found.new ≡ found.old ++ operands_in_of pattern.now) }
{
    match pattern {
        Pattern::Operand(k) => {
            found.push(*k)?;
            Ok(())
        }
        Pattern::Label(_, inner) => push_operands(found, inner.get()),
        Pattern::Both(parts) => push_all_operands(found, parts.as_slice()),
        Pattern::Either(parts) => push_all_operands(found, parts.as_slice()),
        Pattern::Chain(parts) => push_all_operands(found, parts.as_slice()),
        Pattern::Loose(inner) => push_operands(found, inner.get()),
        Pattern::Token(_) => Ok(()),
        Pattern::Limit { .. } => Ok(()),
        Pattern::Bind(_) => Ok(()),
        Pattern::Apply { .. } => Ok(()),
        Pattern::Empty => Ok(()),
    }
}

#[cycle(operands_in)]
fn push_all_operands(found: &mut Items<u32>, parts: &[Pattern]) -> Result<(), NoMemory>
    ensures { OnOk result (found.new ≡ found.old ++ flat_map operands_in_of parts.now) }
{
    for part in parts {
        push_operands(found, part)?;
    }
    Ok(())
}

/// The choice of this number, among the entries that are choices.
fn nth_choice(entries: &[RawEntry], number: usize) -> Option<&RawEntry>
    ensures { option_copied result ≡ slice_get (filter is_choice_of entries.now) number }
{
    let mut left = number;
    for entry in entries {
        if matches!(entry, RawEntry::Choice { .. }) {
            if left == 0 {
                return Some(entry);
            }
            left -= 1;
        }
    }
    None
}

/// Where the number stands first.
fn place_of(operands: &[u32], operand: usize) -> Option<usize>
    ensures { result ≡ position (λ j. j == operand) operands.now }
{
    operands.iter().position(|k| *k as usize == operand)
}

/// The choice for the operand of this number, among what the constructor's body bound.
fn choice_of<'a>(
    alloc: Global,
    constructor: &Constructor,
    inner: &'a [RawEntry],
    operand: usize,
) -> Result<Option<&'a RawEntry>, NoMemory>
    ensures { IfOk result (λ choice. option_copied choice ≡ choice_in constructor.now inner.now operand) }
{
    let mut operands = Items::new(alloc);
    push_operands(&mut operands, &constructor.body)?;
    match place_of(operands.as_slice(), operand) {
        None => Ok(None),
        Some(place) => Ok(nth_choice(inner, place)),
    }
}

/// Whether the arguments of the constructor admit what its body bound.
#[cycle(admitted)]
pub(crate) fn arguments_admit(
    alloc: Global,
    arguments: &[Argument],
    near: &PatternContext<'_>,
    constructor: &Constructor,
    inner: &[RawEntry],
) -> Result<bool, NoMemory>
    ensures { IfOk result (λ admitted. admitted ≡ list_admits (known_in near.now) constructor.now inner.now 0 arguments.now) }
{
    for (operand, argument) in arguments.iter().enumerate() {
        let choice = choice_of(alloc, constructor, inner, operand)?;
        if !argument_admits(alloc, argument, near, choice)? {
            return Ok(false);
        }
    }
    Ok(true)
}

#[cycle(admitted)]
fn argument_admits(
    alloc: Global,
    argument: &Argument,
    near: &PatternContext<'_>,
    choice: Option<&RawEntry>,
) -> Result<bool, NoMemory>
    ensures { IfOk result (λ admitted. admitted ≡ argument_admits_of (known_in near.now) (option_copied choice.entry) argument.now) }
{
    match argument {
        Argument::Any => Ok(true),
        Argument::Name(_) => Ok(true),
        Argument::Inner(pattern) => application_admits(alloc, pattern.get(), near, choice),
    }
}

#[cycle(admitted)]
fn application_admits(
    alloc: Global,
    pattern: &Pattern,
    near: &PatternContext<'_>,
    choice: Option<&RawEntry>,
) -> Result<bool, NoMemory>
    ensures { IfOk result (λ admitted. admitted ≡ application_admits_of (known_in near.now) (option_copied choice.entry) pattern.now) }
{
    let Pattern::Apply {
        constructor,
        arguments,
    } = pattern
    else {
        return Ok(false);
    };
    let Some(taken) = choice else {
        return Ok(false);
    };
    let RawEntry::Choice {
        constructor: chosen,
        inner,
        ..
    } = taken
    else {
        return Ok(false);
    };
    if chosen.0 != constructor.0 {
        return Ok(false);
    }
    match item_at(near.constructors, constructor.0 as usize) {
        None => Ok(true),
        Some(known) => arguments_admit(
            alloc,
            arguments.as_slice(),
            near,
            known,
            inner.entries.as_slice(),
        ),
    }
}
