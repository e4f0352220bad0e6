// A constructor of a new type, made and added.
use crate::{add_constructors, constructors_of};
use constructor_meaning::{ConstructorTree, draft_of};
use sled_model::Spec;
use sled_parser::tree::{EqTreeList, OperandTreeList, PatternTree, Spelling};
use std::test::Fail;
use tree_meaning::Scope;
use type_tables::TypeTable;

#[test]
fn a_constructor_of_a_new_type(rt: HostRuntime) -> Result<(), Fail> {
    let alloc = rt.alloc();
    let opcode = Spelling::from_slice(alloc, b"c")?;
    let made = Some(Spelling::from_slice(alloc, b"t")?);
    let tree = ConstructorTree {
        opcode: &opcode,
        operands: &OperandTreeList::new(alloc),
        result: &made,
        equations: &EqTreeList::new(alloc),
        body: &PatternTree::Empty,
    };
    let mut spec = Spec::new(alloc);
    let mut types = TypeTable::new(alloc);
    let mut scope = Scope::new(alloc);
    let Ok(draft) = draft_of(alloc, &spec, &types, &mut scope, &tree) else {
        return Err(Fail::new("the constructor is refused"));
    };
    assert_eq!(rt;
        constructors_of(alloc, &spec, &scope, &tree, &draft)?.len(),
        1
    );
    add_constructors(alloc, &mut spec, &mut types, &mut scope, &tree, draft)?;
    assert_eq!(rt; spec.constructors.len(), 1);
    assert_eq!(rt; spec.type_names.len(), 1);
    assert!(rt; scope.type_named(b"t").is_some());
    Ok(())
}
