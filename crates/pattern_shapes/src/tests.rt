ghost use Rattle.std.specs.Prelude.{IfOk};
ghost use Rattle.token_bits.specs.Tokens.{AreTokens};

use crate::{Form, add_shapes, form_of};
use sled_base::NoMemory;
use sled_model::{Pattern, PatternList, Relation, ShapeList};
use sqlite_items::{Boxed, Items};
use std::alloc::Global;
use std::test::Fail;
use token_bits::{Class, Field, FieldId, Order, Tokens};

/// Field 0 is all of a class of 8 bits, and field 1 all of a class of 32 bits.
fn two_classes(alloc: Global) -> Result<Tokens, NoMemory>
    ensures { IfOk result AreTokens }
{
    let mut tokens = Tokens::new(alloc);
    let byte = tokens.add_class(Class {
        width: 8,
        order: Order::Big,
    })?;
    tokens.add_field(Field {
        class: byte,
        lo: 0,
        hi: 7,
    })?;
    let word = tokens.add_class(Class {
        width: 32,
        order: Order::Little,
    })?;
    tokens.add_field(Field {
        class: word,
        lo: 0,
        hi: 31,
    })?;
    Ok(tokens)
}

/// The relation `field = 1`.
fn is_one(field: u32) -> Pattern {
    Pattern::Limit {
        field: FieldId(field),
        relation: Relation::Equal,
        value: 1,
    }
}

fn pair(alloc: Global, first: Pattern, second: Pattern) -> Result<PatternList, NoMemory> {
    let mut parts = Items::new(alloc);
    parts.push(first)?;
    parts.push(second)?;
    Ok(parts)
}

/// `field = 1 ...`
fn loose_one(alloc: Global, field: u32) -> Result<Pattern, NoMemory> {
    Ok(Pattern::Loose(Boxed::new(alloc, is_one(field))?))
}

fn asked(form: &Form) -> (bool, bool, bool) {
    (form.agree, form.closed, form.alike)
}

#[test]
fn fields_of_two_classes_at_one_place(rt: HostRuntime) -> Result<(), Fail> {
    let tokens = two_classes(rt.alloc())?;
    let parts = pair(rt.alloc(), is_one(0), is_one(1))?;
    let form = form_of(rt.alloc(), &tokens, &[], &Pattern::Both(parts))?;
    assert_eq!(rt; asked(&form), (false, true, true));
    Ok(())
}

#[test]
fn loose_token_and_two_tokens(rt: HostRuntime) -> Result<(), Fail> {
    let tokens = two_classes(rt.alloc())?;
    let two = Pattern::Chain(pair(rt.alloc(), is_one(0), is_one(1))?);
    let parts = pair(rt.alloc(), loose_one(rt.alloc(), 0)?, two)?;
    let form = form_of(rt.alloc(), &tokens, &[], &Pattern::Both(parts))?;
    assert_eq!(rt; asked(&form), (true, true, true));
    assert_eq!(rt; (form.shapes.len(), form.is_closed()), (1, true));
    assert!(rt; form.lengths_within(&tokens, 5, 5));
    assert!(rt; !form.lengths_within(&tokens, 1, 4));
    Ok(())
}

#[test]
fn loose_before_another(rt: HostRuntime) -> Result<(), Fail> {
    let tokens = two_classes(rt.alloc())?;
    let parts = pair(rt.alloc(), loose_one(rt.alloc(), 0)?, is_one(1))?;
    let form = form_of(rt.alloc(), &tokens, &[], &Pattern::Chain(parts))?;
    assert_eq!(rt; asked(&form), (true, false, true));
    assert!(rt; form.is_closed());
    Ok(())
}

#[test]
fn either_of_two_shapes(rt: HostRuntime) -> Result<(), Fail> {
    let tokens = two_classes(rt.alloc())?;
    let parts = pair(rt.alloc(), is_one(0), loose_one(rt.alloc(), 1)?)?;
    let form = form_of(rt.alloc(), &tokens, &[], &Pattern::Either(parts))?;
    assert_eq!(rt; asked(&form), (true, true, false));
    assert_eq!(rt; (form.shapes.len(), form.is_closed()), (2, false));
    assert!(rt; form.lengths_within(&tokens, 1, 4));
    assert!(rt; !form.lengths_within(&tokens, 2, 4));
    Ok(())
}

/// The shapes of `field 0 = 1 | field 1 = 1 ...`
fn two_shapes(alloc: Global, tokens: &Tokens) -> Result<ShapeList, NoMemory> {
    let parts = pair(alloc, is_one(0), loose_one(alloc, 1)?)?;
    let form = form_of(alloc, tokens, &[], &Pattern::Either(parts))?;
    Ok(form.shapes)
}

#[test]
fn a_body_with_a_typed_operand_of_two_shapes(rt: HostRuntime) -> Result<(), Fail> {
    let tokens = two_classes(rt.alloc())?;
    let operands = [two_shapes(rt.alloc(), &tokens)?];
    let parts = pair(rt.alloc(), Pattern::Operand(0), is_one(1))?;
    let body = form_of(rt.alloc(), &tokens, &operands, &Pattern::Chain(parts))?;
    assert_eq!(rt; asked(&body), (true, false, true));
    assert_eq!(rt; (body.shapes.len(), body.is_closed()), (2, true));
    assert!(rt; body.lengths_within(&tokens, 5, 8));
    assert!(rt; !body.lengths_within(&tokens, 5, 7));
    let none = form_of(rt.alloc(), &tokens, &operands, &Pattern::Operand(1))?;
    assert_eq!(rt; none.shapes.len(), 0);
    Ok(())
}

#[test]
fn shapes_of_a_type_each_once(rt: HostRuntime) -> Result<(), Fail> {
    let tokens = two_classes(rt.alloc())?;
    let mut shapes = two_shapes(rt.alloc(), &tokens)?;
    let form = form_of(rt.alloc(), &tokens, &[], &Pattern::Bind(FieldId(1)))?;
    add_shapes(&mut shapes, form.shapes)?;
    add_shapes(&mut shapes, two_shapes(rt.alloc(), &tokens)?)?;
    assert_eq!(rt; shapes.len(), 3);
    Ok(())
}

#[test]
fn either_of_one_shape(rt: HostRuntime) -> Result<(), Fail> {
    let tokens = two_classes(rt.alloc())?;
    let parts = pair(rt.alloc(), is_one(1), Pattern::Bind(FieldId(1)))?;
    let labelled = Pattern::Label(0, Boxed::new(rt.alloc(), Pattern::Either(parts))?);
    let form = form_of(rt.alloc(), &tokens, &[], &labelled)?;
    assert_eq!(rt; asked(&form), (true, true, true));
    assert_eq!(rt; form.shapes.len(), 1);
    Ok(())
}
