// Instances, appended to a text.
ghost use Rattle.std.specs.Prelude.{◌≡◌, ◌++◌, ℕ, true, map, codes, slice_get, All, IsSome, OnOk, OnErr};
ghost use Rattle.sled_model.specs.Kinds.{admits};
ghost use Rattle.asm_text.specs.Prefixes.{AppendsPrefix};
ghost use Rattle.asm_text.specs.Instances.{constructor_name, separator_before, joined, operand_text, instance_text};
ghost use Rattle.asm_text.specs.Writable.{HasNoPlace, HasText, InstanceHasText};

use crate::bytes::{write_bytes, write_number};
use sled_base::NoMemory;
use sled_model::{ConstructorId, Instance, Operand, Spec};
use std::alloc::Global;

/// Appends the instance to the text: its constructor's name, `(`, its operands with a comma and one space between two, and `)`. An
/// operand is a number in decimal, with `-` in front where it is negative, or an instance, which is written as such.
///
/// The description admits the instance, and no operand at any level is the address of a label. `NoMemory` leaves the old text with a
/// prefix of the instance's text behind it.
pub fn write_instance(
    _alloc: Global,
    spec: &Spec,
    instance: &Instance,
    text: &mut Vec<u8>,
) -> Result<(), NoMemory>
    requires admitted { admits spec.now instance.now ≡ true }
    requires resolved { All HasNoPlace instance.now.operands }
    ensures written { OnOk result (text.new.items ≡ text.old.items ++ instance_text spec.now instance.now) }
    ensures prefix { OnErr result (AppendsPrefix text.old.items text.new.items (instance_text spec.now instance.now)) }
{
    write_known(spec, instance, text)
}

#[cycle(write)]
fn write_known(spec: &Spec, instance: &Instance, text: &mut Vec<u8>) -> Result<(), NoMemory>
    requires { InstanceHasText spec.now instance.now }
    ensures written { OnOk result (text.new.items ≡ text.old.items ++ instance_text spec.now instance.now) }
    ensures prefix { OnErr result (AppendsPrefix text.old.items text.new.items (instance_text spec.now instance.now)) }
{
    write_head(spec, instance.constructor, text)?;
    write_operands(spec, instance.operands.as_slice(), text)?;
    write_bytes(b")", text)
}

#[cycle(write)]
fn write_operands(spec: &Spec, operands: &[Operand], text: &mut Vec<u8>) -> Result<(), NoMemory>
    requires { All (HasText spec.now) operands.now }
    ensures written { OnOk result (text.new.items ≡ text.old.items ++ joined (map (operand_text spec.now) operands.now)) }
    ensures prefix { OnErr result (AppendsPrefix text.old.items text.new.items (joined (map (operand_text spec.now) operands.now))) }
{
    for (number, operand) in operands.iter().enumerate() {
        write_separator(number, text)?;
        write_operand(spec, operand, text)?;
    }
    Ok(())
}

/// Appends a number, or an instance.
#[cycle(write)]
pub(crate) fn write_operand(
    spec: &Spec,
    operand: &Operand,
    text: &mut Vec<u8>,
) -> Result<(), NoMemory>
    requires { HasText spec.now operand.now }
    ensures written { OnOk result (text.new.items ≡ text.old.items ++ operand_text spec.now operand.now) }
    ensures prefix { OnErr result (AppendsPrefix text.old.items text.new.items (operand_text spec.now operand.now)) }
{
    match operand {
        Operand::Num(number) => write_number(*number, text),
        Operand::Place { .. } => unreachable!(),
        Operand::Sub(inner) => write_known(spec, inner.get(), text),
    }
}

/// Appends the constructor's name, and the opening bracket.
fn write_head(spec: &Spec, constructor: ConstructorId, text: &mut Vec<u8>) -> Result<(), NoMemory>
    requires { IsSome (slice_get spec.now.constructors constructor.0) }
    ensures written { OnOk result (text.new.items ≡ text.old.items ++ (constructor_name spec.now constructor ++ codes "(")) }
    ensures prefix { OnErr result (AppendsPrefix text.old.items text.new.items (constructor_name spec.now constructor ++ codes "(")) }
{
    match spec.constructor(constructor) {
        Some(known) => {
            write_bytes(known.name.as_slice(), text)?;
            write_bytes(b"(", text)
        }
        None => unreachable!(),
    }
}

/// Appends what stands before the operand of this number: nothing before the first, and else a comma and one space.
fn write_separator(number: usize, text: &mut Vec<u8>) -> Result<(), NoMemory>
    ensures written { OnOk result (text.new.items ≡ text.old.items ++ separator_before number) }
    ensures prefix { OnErr result (AppendsPrefix text.old.items text.new.items (separator_before number)) }
{
    if number == 0 {
        return Ok(());
    }
    write_bytes(b", ", text)
}
