// Bytes and numbers, appended to a text.
ghost use Rattle.std.specs.Prelude.{◌≡◌, ◌++◌, OnOk, OnErr};
ghost use Rattle.asm_text.specs.Numbers.{number_text};
ghost use Rattle.asm_text.specs.Prefixes.{AppendsPrefix};

use itoa::Buffer;
use sled_base::NoMemory;

pub(crate) fn write_bytes(bytes: &[u8], text: &mut Vec<u8>) -> Result<(), NoMemory>
    ensures written { OnOk result (text.new.items ≡ text.old.items ++ bytes.now) }
    ensures prefix { OnErr result (AppendsPrefix text.old.items text.new.items bytes.now) }
{
    text.extend_from_slice(bytes)?;
    Ok(())
}

/// Appends the number in decimal, with `-` in front where it is negative.
pub(crate) fn write_number(number: i64, text: &mut Vec<u8>) -> Result<(), NoMemory>
    ensures written { OnOk result (text.new.items ≡ text.old.items ++ number_text number) }
    ensures prefix { OnErr result (AppendsPrefix text.old.items text.new.items (number_text number)) }
{
    let mut digits = Buffer::new();
    write_bytes(digits.format(number).as_bytes(), text)
}
