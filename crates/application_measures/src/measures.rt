// The measures of a pattern of an arm.
ghost use Rattle.std.specs.Prelude.{◌≡◌, List, slice_get, Some, IfOk};
ghost use Rattle.sled_model.specs.declared.pattern.Argument.{Argument as ArgumentOf};
ghost use Rattle.sled_model.specs.declared.pattern.Pattern.TheVariants.{Apply};
ghost use Rattle.sled_model.specs.Specs.{IsSpec};
ghost use Rattle.application_measures.specs.Tables.{IsApplicationTableOf};
ghost use Rattle.application_measures.specs.Arms.{AreArmMeasures, ArePartsOf, AreOperandsOf, IsInner};

use crate::ApplicationTable;
use crate::applied::Operands;
use crate::parts::Parts;
use crate::types::number_at;
use crate::wholes::{both, chain, either, labelled, leaf, loose};
use pattern_normal::weight_over;
use pattern_shapes::{Form, form_of};
use sled_base::NoMemory;
use sled_model::{Argument, Constructor, ConstructorId, OperandKind, Pattern, Spec};
use std::alloc::Global;

/// What a pattern of an arm comes to. A number above 1,000,000 is told as 1,000,000.
#[derive(Debug, Drop)]
pub struct ArmMeasures {
    pub form: Form,
    pub weight: u64,
    pub size: u64,
    pub len: u64,
}

/// The form, the weight, the size and the length of a pattern of an arm, by the description and its table. An application has the
/// shapes and the weight of the constructor's body, where an operand has those of its type, or of the inner application that is its
/// argument; and it has the size and the length of its constructor. `NoMemory` where there is no memory for the answer.
#[cycle(measures)]
pub fn arm_measures(
    alloc: Global,
    spec: &Spec,
    table: &ApplicationTable,
    pattern: &Pattern,
) -> Result<ArmMeasures, NoMemory>
    requires spec { IsSpec spec.now }
    requires table { IsApplicationTableOf spec.now table.now }
    ensures { IfOk result (AreArmMeasures spec.now pattern.now) }
{
    match pattern {
        Pattern::Token(_) => leaf(alloc, spec, pattern),
        Pattern::Limit { .. } => leaf(alloc, spec, pattern),
        Pattern::Bind(_) => leaf(alloc, spec, pattern),
        Pattern::Operand(_) => leaf(alloc, spec, pattern),
        Pattern::Empty => leaf(alloc, spec, pattern),
        Pattern::Label(label, inner) => {
            let part = arm_measures(alloc, spec, table, inner.get())?;
            labelled(alloc, spec, *label, part)
        }
        Pattern::Loose(inner) => {
            let part = arm_measures(alloc, spec, table, inner.get())?;
            loose(alloc, spec, part)
        }
        Pattern::Both(members) => {
            let parts = parts_of(alloc, spec, table, members.as_slice())?;
            both(alloc, spec, members.len(), &parts)
        }
        Pattern::Either(members) => {
            let parts = parts_of(alloc, spec, table, members.as_slice())?;
            either(alloc, spec, members.len(), &parts)
        }
        Pattern::Chain(members) => {
            let parts = parts_of(alloc, spec, table, members.as_slice())?;
            chain(alloc, spec, members.len(), &parts)
        }
        Pattern::Apply {
            constructor,
            arguments,
        } => application(alloc, spec, table, *constructor, arguments.as_slice()),
    }
}

#[cycle(measures)]
fn parts_of(
    alloc: Global,
    spec: &Spec,
    table: &ApplicationTable,
    members: &[Pattern],
) -> Result<Parts, NoMemory>
    requires spec { IsSpec spec.now }
    requires table { IsApplicationTableOf spec.now table.now }
    ensures { IfOk result (ArePartsOf spec.now members.now) }
{
    let mut parts = Parts::new(alloc);
    for member in members {
        parts.add(arm_measures(alloc, spec, table, member)?)?;
    }
    Ok(parts)
}

#[cycle(measures)]
fn application(
    alloc: Global,
    spec: &Spec,
    table: &ApplicationTable,
    k: ConstructorId,
    arguments: &[Argument],
) -> Result<ArmMeasures, NoMemory>
    requires spec { IsSpec spec.now }
    requires table { IsApplicationTableOf spec.now table.now }
    ensures { IfOk result (AreArmMeasures spec.now (Apply k arguments.now)) }
{
    let Some(constructor) = spec.constructor(k) else {
        // What is not there comes to nothing, as an operand does that stands in no body.
        return leaf(alloc, spec, &Pattern::Operand(0));
    };
    let kinds = constructor.operands.as_slice();
    let operands = operands_of(alloc, spec, table, kinds, arguments)?;
    body_measures(alloc, spec, table, k, constructor, &operands)
}

/// What an application of the constructor comes to, over these operands.
fn body_measures(
    alloc: Global,
    spec: &Spec,
    table: &ApplicationTable,
    k: ConstructorId,
    constructor: &Constructor,
    operands: &Operands,
) -> Result<ArmMeasures, NoMemory>
    requires spec { IsSpec spec.now }
    requires table { IsApplicationTableOf spec.now table.now }
    requires found { slice_get spec.now.constructors k.0 ≡ Some constructor.now }
    ensures { IfOk result (λ m. (arguments : List ArgumentOf) → AreOperandsOf spec.now constructor.now.operands arguments operands.now → AreArmMeasures spec.now (Apply k arguments) m) }
{
    let body = form_of(
        alloc,
        &spec.tokens,
        operands.shapes.as_slice(),
        &constructor.body,
    )?;
    Ok(ArmMeasures {
        form: Form {
            shapes: body.shapes,
            agree: true,
            closed: true,
            alike: true,
        },
        weight: weight_over(&spec.tokens, operands.weights.as_slice(), &constructor.body),
        size: number_at(table.sizes.as_slice(), k.0),
        len: number_at(table.lens.as_slice(), k.0),
    })
}

/// What the operands of these kinds come to, with each inner application in place of its operand.
#[cycle(measures)]
fn operands_of(
    alloc: Global,
    spec: &Spec,
    table: &ApplicationTable,
    kinds: &[OperandKind],
    arguments: &[Argument],
) -> Result<Operands, NoMemory>
    requires spec { IsSpec spec.now }
    requires table { IsApplicationTableOf spec.now table.now }
    ensures { IfOk result (AreOperandsOf spec.now kinds.now arguments.now) }
{
    let mut operands = Operands::of_kinds(alloc, table.types.types.as_slice(), kinds)?;
    for (at, argument) in arguments.iter().enumerate() {
        operands.put(at, inner_of(alloc, spec, table, argument)?);
    }
    Ok(operands)
}

/// The measures of the inner application, where the argument is one.
#[cycle(measures)]
fn inner_of(
    alloc: Global,
    spec: &Spec,
    table: &ApplicationTable,
    argument: &Argument,
) -> Result<Option<ArmMeasures>, NoMemory>
    requires spec { IsSpec spec.now }
    requires table { IsApplicationTableOf spec.now table.now }
    ensures { IfOk result (IsInner spec.now argument.now) }
{
    match argument {
        Argument::Any => Ok(None),
        Argument::Name(_) => Ok(None),
        Argument::Inner(pattern) => Ok(Some(arm_measures(alloc, spec, table, pattern.get())?)),
    }
}
