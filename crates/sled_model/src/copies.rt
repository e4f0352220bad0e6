// Equal copies of trees.
ghost use Rattle.std.specs.Prelude.{◌≡◌, IfOk};

use crate::{Argument, Instance, Operand, Pattern, Raw, RawEntry};
use sled_base::NoMemory;
use sqlite_items::{Boxed, Items};
use std::alloc::Global;

impl Instance {
    /// An equal instance.
    #[cycle(instance_copy)]
    pub fn copy(&self, alloc: Global) -> Result<Instance, NoMemory>
        ensures { IfOk result (λ i. i ≡ self.now) }
    {
        let operands = copy_operands(alloc, self.operands.as_slice())?;
        Ok(Instance {
            constructor: self.constructor,
            operands,
        })
    }
}

#[cycle(instance_copy)]
fn copy_operands(alloc: Global, operands: &[Operand]) -> Result<Items<Operand>, NoMemory>
    ensures { IfOk result (λ os. os ≡ operands.now) }
{
    let mut copied = Items::new(alloc);
    for operand in operands {
        copied.push(copy_operand(alloc, operand)?)?;
    }
    Ok(copied)
}

#[cycle(instance_copy)]
fn copy_operand(alloc: Global, operand: &Operand) -> Result<Operand, NoMemory>
    ensures { IfOk result (λ o. o ≡ operand.now) }
{
    match operand {
        Operand::Num(n) => Ok(Operand::Num(*n)),
        Operand::Place { label, add } => Ok(Operand::Place {
            label: *label,
            add: *add,
        }),
        Operand::Sub(inner) => {
            let inner = inner.get().copy(alloc)?;
            Ok(Operand::Sub(Boxed::new(alloc, inner)?))
        }
    }
}

impl Pattern {
    /// An equal pattern.
    #[cycle(pattern_copy)]
    pub fn copy(&self, alloc: Global) -> Result<Pattern, NoMemory>
        ensures { IfOk result (λ p. p ≡ self.now) }
    {
        match self {
            Pattern::Token(class) => Ok(Pattern::Token(*class)),
            Pattern::Limit {
                field,
                relation,
                value,
            } => Ok(Pattern::Limit {
                field: *field,
                relation: *relation,
                value: *value,
            }),
            Pattern::Bind(field) => Ok(Pattern::Bind(*field)),
            Pattern::Operand(k) => Ok(Pattern::Operand(*k)),
            Pattern::Label(label, p) => Ok(Pattern::Label(*label, copy_boxed(alloc, p)?)),
            Pattern::Both(ps) => Ok(Pattern::Both(copy_patterns(alloc, ps.as_slice())?)),
            Pattern::Either(ps) => Ok(Pattern::Either(copy_patterns(alloc, ps.as_slice())?)),
            Pattern::Chain(ps) => Ok(Pattern::Chain(copy_patterns(alloc, ps.as_slice())?)),
            Pattern::Loose(p) => Ok(Pattern::Loose(copy_boxed(alloc, p)?)),
            Pattern::Apply {
                constructor,
                arguments,
            } => Ok(Pattern::Apply {
                constructor: *constructor,
                arguments: copy_arguments(alloc, arguments.as_slice())?,
            }),
            Pattern::Empty => Ok(Pattern::Empty),
        }
    }
}

#[cycle(pattern_copy)]
fn copy_boxed(alloc: Global, pattern: &Boxed<Pattern>) -> Result<Boxed<Pattern>, NoMemory>
    ensures { IfOk result (λ p. p ≡ pattern.now) }
{
    let copied = pattern.get().copy(alloc)?;
    Ok(Boxed::new(alloc, copied)?)
}

#[cycle(pattern_copy)]
fn copy_patterns(alloc: Global, patterns: &[Pattern]) -> Result<Items<Pattern>, NoMemory>
    ensures { IfOk result (λ ps. ps ≡ patterns.now) }
{
    let mut copied = Items::new(alloc);
    for pattern in patterns {
        copied.push(pattern.copy(alloc)?)?;
    }
    Ok(copied)
}

/// Equal arguments.
#[cycle(pattern_copy)]
pub fn copy_arguments(alloc: Global, arguments: &[Argument]) -> Result<Items<Argument>, NoMemory>
    ensures { IfOk result (λ ps. ps ≡ arguments.now) }
{
    let mut copied = Items::new(alloc);
    for argument in arguments {
        copied.push(copy_argument(alloc, argument)?)?;
    }
    Ok(copied)
}

#[cycle(pattern_copy)]
fn copy_argument(alloc: Global, argument: &Argument) -> Result<Argument, NoMemory>
    ensures { IfOk result (λ a. a ≡ argument.now) }
{
    match argument {
        Argument::Any => Ok(Argument::Any),
        Argument::Name(k) => Ok(Argument::Name(*k)),
        Argument::Inner(p) => Ok(Argument::Inner(copy_boxed(alloc, p)?)),
    }
}

impl RawEntry {
    /// An equal entry.
    #[cycle(raw_copy)]
    pub fn copy(&self, alloc: Global) -> Result<RawEntry, NoMemory>
        ensures { IfOk result (λ e. e ≡ self.now) }
    {
        match self {
            RawEntry::Value { field, value, at } => Ok(RawEntry::Value {
                field: *field,
                value: *value,
                at: *at,
            }),
            RawEntry::Mark { label, at } => Ok(RawEntry::Mark {
                label: *label,
                at: *at,
            }),
            RawEntry::Choice {
                constructor,
                inner,
                arguments,
            } => Ok(RawEntry::Choice {
                constructor: *constructor,
                inner: Raw {
                    entries: copy_entries(alloc, inner.entries.as_slice())?,
                },
                arguments: copy_arguments(alloc, arguments.as_slice())?,
            }),
        }
    }
}

#[cycle(raw_copy)]
pub(crate) fn copy_entries(alloc: Global, entries: &[RawEntry]) -> Result<Items<RawEntry>, NoMemory>
    ensures { IfOk result (λ es. es ≡ entries.now) }
{
    let mut copied = Items::new(alloc);
    for entry in entries {
        copied.push(entry.copy(alloc)?)?;
    }
    Ok(copied)
}
