// The form of a pattern that names no constructor.
ghost use Rattle.std.specs.Prelude.{IfOk};
ghost use Rattle.pattern_shapes.specs.Forms.{IsFormOf};
ghost use Rattle.sled_model.specs.Leaves.{AllLeaves, NamesNoConstructor};
ghost use Rattle.sled_model.specs.Shapes.{spec_shapes};

use pattern_shapes::{Form, form_of};
use sled_base::NoMemory;
use sled_model::{Pattern, Spec};
use std::alloc::Global;

/// The form of a pattern that stands in no body and names no constructor.
pub fn spec_form(alloc: Global, spec: &Spec, pattern: &Pattern) -> Result<Form, NoMemory>
    requires { AllLeaves NamesNoConstructor pattern.now }
    ensures { IfOk result (IsFormOf (spec_shapes spec.now) pattern.now) }
{
    let form = form_of(alloc, &spec.tokens, &[], pattern)?;
    Ok(form)
}
