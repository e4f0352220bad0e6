// Statements that are made ready to tell the places of an image.
ghost use Rattle.std.specs.Prelude.{◌≡◌, IfOk};
ghost use Rattle.match_meaning.specs.Matchable.{IsMatchable};
ghost use Rattle.disassembler.specs.Ready.{IsPrepared};

use arm_matching::{Matcher, compile};
use instance_reading::{Plans, Scratch, plans_of};
use sled_base::NoMemory;
use sled_model::{Spec, Statement};
use std::alloc::Global;

/// A statement made ready to tell the places of an image: its arms as one graph, and the solved equations of its description. It keeps
/// the buffers that reading a place needs, so that none is taken anew for each.
#[derive(Drop)]
pub struct Disassembler<'a> {
    pub(crate) spec: &'a Spec,
    pub(crate) statement: &'a Statement,
    pub(crate) matcher: Matcher<'a>,
    pub(crate) plans: Plans,
    pub(crate) scratch: Scratch,
}

/// The statement, ready to tell the places of an image. `NoMemory` where there is no memory, and where `compile` of `arm_matching`
/// answers so.
pub fn prepare<'a>(
    alloc: Global,
    spec: &'a Spec,
    statement: &'a Statement,
) -> Result<Disassembler<'a>, NoMemory>
    requires { IsMatchable spec.now statement.now }
    ensures spec { IfOk result (λ d. d.spec.now ≡ spec.now) }
    ensures statement { IfOk result (λ d. d.statement.now ≡ statement.now) }
    ensures prepared { IfOk result IsPrepared }
{
    let matcher = compile(alloc, spec, statement)?;
    let plans = plans_of(alloc, spec)?;
    Ok(Disassembler {
        spec,
        statement,
        matcher,
        plans,
        scratch: Scratch::new(alloc),
    })
}
