ghost use Rattle.std.specs.Prelude.{IfOk};
ghost use Rattle.token_bits.specs.Tokens.{AreTokens};

use crate::TypeTable;
use sled_base::NoMemory;
use sled_model::{OperandKind, Pattern, Relation, TypeId};
use std::alloc::Global;
use std::test::Fail;
use token_bits::{Class, Field, FieldId, Order, Tokens};

/// Field 0 is the low half of a class of 8 bits.
fn low_half(alloc: Global) -> Result<Tokens, NoMemory>
    ensures { IfOk result AreTokens }
{
    let mut tokens = Tokens::new(alloc);
    let class = tokens.add_class(Class {
        width: 8,
        order: Order::Little,
    })?;
    tokens.add_field(Field {
        class,
        lo: 0,
        hi: 3,
    })?;
    Ok(tokens)
}

/// Type 0 is made by `low < 7`, of weight 3, with a whole number, and by `low < 3`, of weight 2. Type 1 is made by none.
fn two_types(alloc: Global, tokens: &Tokens) -> Result<TypeTable, NoMemory>
    requires { AreTokens tokens.now }
{
    let mut table = TypeTable::new(alloc);
    table.add_type(alloc)?;
    table.add_type(alloc)?;
    let seven = Pattern::Limit {
        field: FieldId(0),
        relation: Relation::Below,
        value: 7,
    };
    let three = Pattern::Limit {
        field: FieldId(0),
        relation: Relation::Below,
        value: 3,
    };
    let first = table.measure(alloc, tokens, &[OperandKind::Whole], &seven)?;
    table.add_constructor(Some(TypeId(0)), &[OperandKind::Whole], first)?;
    let second = table.measure(alloc, tokens, &[], &three)?;
    table.add_constructor(Some(TypeId(0)), &[], second)?;
    Ok(table)
}

#[test]
fn an_operand_of_a_type(rt: HostRuntime) -> Result<(), Fail> {
    let alloc = rt.alloc();
    let tokens = low_half(alloc)?;
    let mut table = two_types(alloc, &tokens)?;
    assert!(rt; !table.is_used(TypeId(0)));
    let kinds = [OperandKind::Sliced, OperandKind::Typed(TypeId(0))];
    let measures = table.measure(alloc, &tokens, &kinds, &Pattern::Operand(1))?;
    assert_eq!(rt; (measures.weight, measures.size), (5, 4));
    assert_eq!(rt; measures.form.shapes.len(), 1);
    table.add_constructor(None, &kinds, measures)?;
    assert!(rt; table.is_used(TypeId(0)));
    assert!(rt; !table.is_used(TypeId(1)));
    Ok(())
}
