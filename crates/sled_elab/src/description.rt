// A description, and what its names stand for.
ghost use Rattle.std.specs.Prelude.{◌≡◌};
ghost use Rattle.sled_elab.specs.Declarations.{nothing};
ghost use Rattle.sled_elab.specs.Descriptions.{described_in, IsSound};

use sled_model::Spec;
use std::alloc::Global;
use tree_meaning::Scope;

/// A description, and what the names that it declares stand for.
#[derive(Drop)]
pub struct Description<'a> {
    pub spec: Spec,
    pub scope: Scope<'a>,
}

impl<'a> Description<'a> {
    /// The description that declares nothing.
    pub fn new(alloc: Global) -> Description<'a>
        ensures nothing { described_in result ≡ nothing }
        ensures sound { IsSound (described_in result) }
    {
        Description {
            spec: Spec::new(alloc),
            scope: Scope::new(alloc),
        }
    }
}
