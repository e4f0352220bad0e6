// Descriptions from trees. Texts are tried where the program stands whole.
ghost use Rattle.std.specs.Prelude.{◌≡◌, IfOk};
ghost use Rattle.sled_elab.specs.Descriptions.{HasNumbersInRange};

use crate::{ElabFault, elaborate, scope_of};
use sled_parser::tree::{Decl, FieldTree, FieldTreeList, Spelling};
use std::alloc::Global;
use std::test::Fail;

fn class(alloc: Global, hi: &[u8]) -> Result<Decl, Fail>
    ensures { IfOk result HasNumbersInRange }
{
    let mut fields = FieldTreeList::new(alloc);
    fields.push(FieldTree {
        name: Spelling::from_slice(alloc, b"x")?,
        lo: Spelling::from_slice(alloc, b"0")?,
        hi: Spelling::from_slice(alloc, hi)?,
    })?;
    Ok(Decl::Class {
        name: Spelling::from_slice(alloc, b"b")?,
        width: Spelling::from_slice(alloc, b"8")?,
        little: false,
        fields,
    })
}

#[test]
fn a_class_and_its_scope(rt: HostRuntime) -> Result<(), Fail> {
    let alloc = rt.alloc();
    let decls = [class(alloc, b"7")?];
    let Ok(spec) = elaborate(alloc, &decls) else {
        return Err(Fail::new("the class is refused"));
    };
    assert_eq!(rt; spec.field_names.len(), 1);
    let scope = scope_of(alloc, &decls, &spec)?;
    assert!(rt; scope.find(b"b").is_some());
    assert!(rt; scope.field_named(b"x").is_some());
    Ok(())
}

#[test]
fn a_field_past_its_class(rt: HostRuntime) -> Result<(), Fail> {
    let alloc = rt.alloc();
    let lacks = ElabFault::Unmet {
        declaration: 1,
        condition: 3,
    };
    assert_eq!(rt; elaborate(alloc, &[class(alloc, b"8")?]).err(), Some(lacks));
    Ok(())
}
