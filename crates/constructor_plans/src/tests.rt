// A constructor without equations meets both conditions.
use crate::unmet_plans;
use sled_model::{Constructor, EquationList, KindList, Name, NameList, Pattern, Spec};
use std::test::Fail;

#[test]
fn no_equations(rt: HostRuntime) -> Result<(), Fail> {
    let alloc = rt.alloc();
    let constructor = Constructor {
        name: Name::new(alloc),
        result: None,
        operands: KindList::new(alloc),
        names: NameList::new(alloc),
        equations: EquationList::new(alloc),
        body: Pattern::Empty,
    };
    assert_eq!(rt;
        unmet_plans(alloc, &Spec::new(alloc), &[constructor])?,
        None
    );
    Ok(())
}
