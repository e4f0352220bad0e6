// The results of operands and applications.
ghost use Rattle.std.specs.Prelude.{◌≡◌, ◌+◌, ◌^◌, ◌<◌, ◌≤◌, ◌++◌, ◌∷◌, [], map, filter, length, slice_get, All, IfOk, OnOk, if◌then◌else◌};
ghost use Rattle.sled_model.specs.Results.{results_from, makes as makes_of, choice_match, choices_from, operand_results as operand_results_of};
ghost use Rattle.sled_model.specs.Admitted.{list_admits, applied};
ghost use Rattle.sled_model.specs.PatternContexts.{known_in, context_in, IsPatternContext};

use crate::admitted::arguments_admit;
use crate::context::PatternContext;
use crate::copies::{copy_arguments, copy_entries};
use crate::{Argument, Constructor, ConstructorId, Match, OperandKind, Raw, RawEntry, TypeId};
use sled_base::NoMemory;
use sqlite_items::{Items, at as item_at};
use std::alloc::Global;

fn makes(of: TypeId, made: Option<TypeId>) -> bool
    ensures { result ≡ makes_of of made }
{
    match made {
        None => false,
        Some(made) => made.0 == of.0,
    }
}

/// Appends the result, as the choice of the constructor of this number by an application with these arguments.
fn push_choice(
    alloc: Global,
    found: &mut Items<Match>,
    k: u32,
    arguments: &[Argument],
    a: &Match,
) -> Result<(), NoMemory>
    ensures { OnOk result (found.new ≡ found.old ++ choice_match k arguments.now a.now ∷ []) }
{
    let inner = Raw {
        entries: copy_entries(alloc, a.binds.as_slice())?,
    };
    let mut binds = Items::new(alloc);
    binds.push(RawEntry::Choice {
        constructor: ConstructorId(k),
        inner,
        arguments: copy_arguments(alloc, arguments)?,
    })?;
    found.push(Match {
        binds,
        len: a.len,
        loose: a.loose,
    })?;
    Ok(())
}

/// Appends each of the results, as the choice of the constructor of this number.
fn push_choices(
    alloc: Global,
    found: &mut Items<Match>,
    k: u32,
    bodies: &[Match],
) -> Result<(), NoMemory>
    ensures { OnOk result (found.new ≡ found.old ++ map (choice_match k []) bodies.now) }
{
    for a in bodies {
        push_choice(alloc, found, k, &[], a)?;
    }
    Ok(())
}

/// Appends the results of constructor number k's body, each as a choice, if that makes a value of the type.
fn push_of_type(
    alloc: Global,
    found: &mut Items<Match>,
    near: &PatternContext<'_>,
    of: TypeId,
    k: usize,
    made: Option<TypeId>,
    at: usize,
) -> Result<(), NoMemory>
    requires near { IsPatternContext near.now }
    requires number { k < 2 ^ 32 }
    requires at { at ≤ length near.now.window.now }
    ensures { OnOk result (found.new ≡ found.old ++ (if makes_of of made then map (choice_match k []) (results_from (slice_get (known_in near.now) k) (λ c. c.body near.now.window.now at)) else [])) }
{
    if !makes(of, made) {
        return Ok(());
    }
    push_choices(alloc, found, k as u32, near.body_at(k, at))
}

/// The results of the bodies of the type's constructors, in order, each as a choice.
fn type_results(
    alloc: Global,
    near: &PatternContext<'_>,
    of: TypeId,
    at: usize,
) -> Result<Items<Match>, NoMemory>
    requires near { IsPatternContext near.now }
    requires at { at ≤ length near.now.window.now }
    ensures { IfOk result (λ found. found ≡ choices_from 0 (known_in near.now) of near.now.window.now at) }
{
    let mut found = Items::new(alloc);
    for (k, constructor) in near.constructors.iter().enumerate() {
        push_of_type(alloc, &mut found, near, of, k, constructor.result, at)?;
    }
    Ok(found)
}

/// The results of the operand of this number, which only a typed one has.
pub(crate) fn operand_results(
    alloc: Global,
    near: &PatternContext<'_>,
    k: u32,
    at: usize,
) -> Result<Items<Match>, NoMemory>
    requires near { IsPatternContext near.now }
    requires at { at ≤ length near.now.window.now }
    ensures value { IfOk result (λ found. found ≡ operand_results_of (context_in near.now) k near.now.window.now at) }
    ensures within { IfOk result (All (λ a. at + a.len ≤ length near.now.window.now)) }
{
    match item_at(near.operands, k as usize) {
        Some(OperandKind::Typed(of)) => type_results(alloc, near, *of, at),
        _ => Ok(Items::new(alloc)),
    }
}

/// Those of the results that the arguments of the constructor admit, each as a choice.
fn admitted_choices(
    alloc: Global,
    near: &PatternContext<'_>,
    k: ConstructorId,
    constructor: &Constructor,
    arguments: &[Argument],
    bodies: &[Match],
) -> Result<Items<Match>, NoMemory>
    ensures { IfOk result (λ found. found ≡ map (choice_match k.0 arguments.now) (filter (λ a. list_admits (known_in near.now) constructor.now a.binds 0 arguments.now) bodies.now)) }
{
    let mut found = Items::new(alloc);
    for a in bodies {
        if arguments_admit(alloc, arguments, near, constructor, a.binds.as_slice())? {
            push_choice(alloc, &mut found, k.0, arguments, a)?;
        }
    }
    Ok(found)
}

/// The results of the constructor's body that the arguments admit, each as a choice.
pub(crate) fn application_results(
    alloc: Global,
    near: &PatternContext<'_>,
    k: ConstructorId,
    arguments: &[Argument],
    at: usize,
) -> Result<Items<Match>, NoMemory>
    requires near { IsPatternContext near.now }
    requires at { at ≤ length near.now.window.now }
    ensures value { IfOk result (λ found. found ≡ applied (known_in near.now) k.0 arguments.now near.now.window.now at) }
    ensures within { IfOk result (All (λ a. at + a.len ≤ length near.now.window.now)) }
{
    let number = k.0 as usize;
    match item_at(near.constructors, number) {
        None => Ok(Items::new(alloc)),
        Some(constructor) => admitted_choices(
            alloc,
            near,
            k,
            constructor,
            arguments,
            near.body_at(number, at),
        ),
    }
}
