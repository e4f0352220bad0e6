// The form of a pattern, by recursion on the pattern.
ghost use Rattle.std.specs.Prelude.{◌≡◌, [], ◌∷◌, get_or, IfOk};
ghost use Rattle.sled_model.specs.Shapes.{rigid, field_shapes as field_shapes_of};
ghost use Rattle.pattern_shapes.specs.Forms.{operand_context, with_shapes, IsFormOf, IsFormOfBoth, IsFormOfAny, IsFormOfChain};

use crate::Form;
use crate::join::distinct_shapes;
use sled_base::NoMemory;
use sled_model::{ClassIdList, Pattern, Shape, ShapeList};
use sqlite_items::Items;
use std::alloc::Global;
use token_bits::{ClassId, FieldId, Tokens};

/// The one shape of these classes that is not loose.
fn rigid_shapes(alloc: Global, classes: ClassIdList) -> Result<ShapeList, NoMemory>
    ensures { IfOk result (λ found. found ≡ rigid classes) }
{
    let mut found = Items::new(alloc);
    found.push(Shape {
        classes,
        loose: false,
    })?;
    Ok(found)
}

/// The shape of a token of the class.
fn class_shapes(alloc: Global, class: ClassId) -> Result<ShapeList, NoMemory>
    ensures { IfOk result (λ found. found ≡ rigid (class ∷ [])) }
{
    let mut classes = Items::new(alloc);
    classes.push(class)?;
    rigid_shapes(alloc, classes)
}

/// The shape of a token of the field's class.
fn field_shapes(alloc: Global, tokens: &Tokens, field: FieldId) -> Result<ShapeList, NoMemory>
    ensures { IfOk result (λ found. found ≡ field_shapes_of tokens.now field) }
{
    match tokens.field(field) {
        Some(field) => class_shapes(alloc, field.class),
        None => Ok(Items::new(alloc)),
    }
}

/// The shapes of operand k, each once.
fn operand_shapes(alloc: Global, operands: &[ShapeList], k: u32) -> Result<ShapeList, NoMemory>
    ensures { IfOk result (λ found. found ≡ with_shapes [] (get_or operands.now k [])) }
{
    match operands.get(k as usize) {
        Some(shapes) => distinct_shapes(alloc, shapes.as_slice()),
        None => Ok(Items::new(alloc)),
    }
}

#[cycle(form)]
fn both_form(
    alloc: Global,
    tokens: &Tokens,
    operands: &[ShapeList],
    parts: &[Pattern],
) -> Result<Form, NoMemory>
    ensures { IfOk result (IsFormOfBoth (operand_context tokens.now operands.now) parts.now) }
{
    let Some((first, rest)) = parts.split_first() else {
        return Ok(Form::plain(Items::new(alloc)));
    };
    let mut form = form_of(alloc, tokens, operands, first)?;
    for part in rest {
        let next = form_of(alloc, tokens, operands, part)?;
        form = form.both(alloc, next)?;
    }
    Ok(form)
}

/// The form of a disjunction, where it is not asked yet whether its shapes are one.
#[cycle(form)]
fn either_form(
    alloc: Global,
    tokens: &Tokens,
    operands: &[ShapeList],
    parts: &[Pattern],
) -> Result<Form, NoMemory>
    ensures { IfOk result (IsFormOfAny (operand_context tokens.now operands.now) parts.now) }
{
    let mut form = Form::plain(Items::new(alloc));
    for part in parts {
        let next = form_of(alloc, tokens, operands, part)?;
        form = form.either(next)?;
    }
    Ok(form)
}

#[cycle(form)]
fn chain_form(
    alloc: Global,
    tokens: &Tokens,
    operands: &[ShapeList],
    parts: &[Pattern],
) -> Result<Form, NoMemory>
    ensures { IfOk result (IsFormOfChain (operand_context tokens.now operands.now) parts.now) }
{
    let Some((first, rest)) = parts.split_first() else {
        return Ok(Form::plain(Items::new(alloc)));
    };
    let mut form = form_of(alloc, tokens, operands, first)?;
    let mut before = form.is_closed();
    for part in rest {
        let next = form_of(alloc, tokens, operands, part)?;
        let whole = before && next.is_closed();
        form = form.chain(alloc, before, next)?;
        before = whole;
    }
    Ok(form)
}

/// The shapes of a pattern, and whether they are as the language asks. Operand k has the shapes of list k of `operands`, or none
/// where there is no such list, and an application has none. `NoMemory` where there is no memory for the answer.
#[cycle(form)]
pub fn form_of(
    alloc: Global,
    tokens: &Tokens,
    operands: &[ShapeList],
    pattern: &Pattern,
) -> Result<Form, NoMemory>
    ensures { IfOk result (IsFormOf (operand_context tokens.now operands.now) pattern.now) }
{
    match pattern {
        Pattern::Token(class) => Ok(Form::plain(class_shapes(alloc, *class)?)),
        Pattern::Limit { field, .. } => Ok(Form::plain(field_shapes(alloc, tokens, *field)?)),
        Pattern::Bind(field) => Ok(Form::plain(field_shapes(alloc, tokens, *field)?)),
        Pattern::Operand(k) => Ok(Form::plain(operand_shapes(alloc, operands, *k)?)),
        Pattern::Label(_, inner) => form_of(alloc, tokens, operands, inner.get()),
        Pattern::Both(parts) => both_form(alloc, tokens, operands, parts.as_slice()),
        Pattern::Either(parts) => {
            let form = either_form(alloc, tokens, operands, parts.as_slice())?;
            Ok(form.asked_alike())
        }
        Pattern::Chain(parts) => chain_form(alloc, tokens, operands, parts.as_slice()),
        Pattern::Loose(inner) => {
            let form = form_of(alloc, tokens, operands, inner.get())?;
            let loose = form.loosened(alloc)?;
            Ok(loose)
        }
        Pattern::Apply { .. } => Ok(Form::plain(Items::new(alloc))),
        Pattern::Empty => Ok(Form::plain(rigid_shapes(alloc, Items::new(alloc))?)),
    }
}
