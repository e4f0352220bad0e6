// The parts of a pattern, and the pattern over them.
ghost use Rattle.std.specs.Prelude.{◌≡◌, [], ◌++◌, ◌∷◌, true, ◌&&◌, IfOk, OnOk};
ghost use Rattle.token_bits.specs.Tokens.{AreTokens};
ghost use Rattle.application_measures.specs.Parts.{AreOver, no_parts, with_part, with_asked, numbered as numbered_of};

use crate::ArmMeasures;
use crate::lengths::len_over;
use pattern_normal::{size_over, weight_over};
use pattern_shapes::{Form, form_of};
use sled_base::NoMemory;
use sled_model::{Pattern, PatternList, ShapeList};
use sqlite_items::Items;
use std::alloc::Global;
use token_bits::Tokens;

/// What is known of the parts of a pattern: of each part its shapes and its measures, and whether all are as the language asks.
#[derive(Drop)]
pub(crate) struct Parts {
    pub shapes: Items<ShapeList>,
    pub weights: Items<u64>,
    pub sizes: Items<u64>,
    pub lens: Items<u64>,
    pub agree: bool,
    pub closed: bool,
    pub alike: bool,
}

impl Parts {
    pub(crate) fn new(alloc: Global) -> Parts
        ensures { result ≡ no_parts }
    {
        Parts {
            shapes: Items::new(alloc),
            weights: Items::new(alloc),
            sizes: Items::new(alloc),
            lens: Items::new(alloc),
            agree: true,
            closed: true,
            alike: true,
        }
    }

    /// Adds a part. On `NoMemory` some of its measures are added.
    pub(crate) fn add(&mut self, part: ArmMeasures) -> Result<(), NoMemory>
        ensures { OnOk result (self.new ≡ with_part self.old part) }
    {
        let ArmMeasures {
            form,
            weight,
            size,
            len,
        } = part;
        self.agree = self.agree && form.agree;
        self.closed = self.closed && form.closed;
        self.alike = self.alike && form.alike;
        self.shapes.push(form.shapes)?;
        self.weights.push(weight)?;
        self.sizes.push(size)?;
        self.lens.push(len)?;
        Ok(())
    }

    /// The form, where what the language asks is asked of the parts too.
    fn asked_too(&self, form: Form) -> Form
        ensures { result ≡ with_asked self.now form }
    {
        let agree = form.agree && self.agree;
        let closed = form.closed && self.closed;
        let alike = form.alike && self.alike;
        Form {
            shapes: form.shapes,
            agree,
            closed,
            alike,
        }
    }

    /// The measures of a pattern in which operand k stands for part k.
    pub(crate) fn over(
        &self,
        alloc: Global,
        tokens: &Tokens,
        whole: &Pattern,
    ) -> Result<ArmMeasures, NoMemory>
        requires { AreTokens tokens.now }
        ensures { IfOk result (AreOver tokens.now self.now whole.now) }
    {
        let form = form_of(alloc, tokens, self.shapes.as_slice(), whole)?;
        Ok(ArmMeasures {
            form: self.asked_too(form),
            weight: weight_over(tokens, self.weights.as_slice(), whole),
            size: size_over(self.sizes.as_slice(), whole),
            len: len_over(tokens, self.lens.as_slice(), whole),
        })
    }
}

/// The first operands, so many. `NoMemory` also where a number of 32 bits does not name each.
pub(crate) fn numbered(alloc: Global, count: usize) -> Result<PatternList, NoMemory>
    ensures { IfOk result (λ operands. operands ≡ numbered_of count) }
{
    let mut operands = Items::new(alloc);
    for k in 0..count {
        let Ok(number) = u32::try_from(k) else {
            return Err(NoMemory);
        };
        operands.push(Pattern::Operand(number))?;
    }
    Ok(operands)
}
