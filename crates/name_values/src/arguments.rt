// The operands that arguments give the names of an arm.
ghost use Rattle.std.specs.Prelude.{◌≡◌, Option, slice_get, option_copied, IfOk};
ghost use Rattle.match_meaning.specs.Names.{named_by as named_by_of, named_in as named_in_of, inner_operands as inner_operands_of};
ghost use Rattle.name_values.specs.Arguments.{named_from};

use sled_base::NoMemory;
use sled_model::{Argument, Operand, Pattern};
use sqlite_items::{Boxed, at as item_at};
use std::alloc::Global;

/// The operand that the arguments give the arm's name of this number, here or inside an inner application.
#[cycle(named)]
pub(crate) fn argument_value<'o>(
    k: usize,
    arguments: &[Argument],
    operands: &'o [Operand],
) -> Option<&'o Operand>
    ensures { option_copied result ≡ named_from k operands.now 0 arguments.now }
{
    for (j, argument) in arguments.iter().enumerate() {
        if let Some(operand) = named_by(k, argument, item_at(operands, j)) {
            return Some(operand);
        }
    }
    None
}

/// The same of one argument, which stands for the operand.
#[cycle(named)]
fn named_by<'o>(k: usize, argument: &Argument, operand: Option<&'o Operand>) -> Option<&'o Operand>
    ensures { option_copied result ≡ named_by_of k (option_copied operand.entry) argument.now }
{
    match argument {
        Argument::Any => None,
        Argument::Name(j) => { if *j as usize == k { operand } else { None } }
        Argument::Inner(pattern) => named_in(k, pattern.get(), inner_operands(operand)),
    }
}

/// The same of an application whose instance has these operands.
#[cycle(named)]
fn named_in<'o>(k: usize, pattern: &Pattern, operands: &'o [Operand]) -> Option<&'o Operand>
    ensures { option_copied result ≡ named_in_of k operands.now pattern.now }
{
    match pattern {
        Pattern::Apply { arguments, .. } => argument_value(k, arguments.as_slice(), operands),
        _ => None,
    }
}

/// The operands of the operand, where it is an instance.
fn inner_operands<'o>(operand: Option<&'o Operand>) -> &'o [Operand]
    ensures { result.now ≡ inner_operands_of (option_copied operand.entry) }
{
    let Some(operand) = operand else {
        return &[];
    };
    match operand {
        Operand::Num(_) => &[],
        Operand::Place { .. } => &[],
        Operand::Sub(inner) => inner.get().operands.as_slice(),
    }
}

/// An equal operand.
pub(crate) fn copy_operand(alloc: Global, operand: &Operand) -> Result<Operand, NoMemory>
    ensures { IfOk result (λ o. o ≡ operand.now) }
{
    match operand {
        Operand::Num(n) => Ok(Operand::Num(*n)),
        Operand::Place { label, add } => Ok(Operand::Place {
            label: *label,
            add: *add,
        }),
        Operand::Sub(inner) => {
            let inner = inner.get().copy(alloc)?;
            Ok(Operand::Sub(Boxed::new(alloc, inner)?))
        }
    }
}
