// The line of a place.
ghost use Rattle.std.specs.Prelude.{◌≡◌, ◌≤◌, ◌++◌, length, OnOk};
ghost use Rattle.hex.specs.Hex.{encode_lower};
ghost use Rattle.image_listing.specs.Listing.{address_text, line_text};

use std::alloc::AllocError;

/// Makes the line of an address, with the bytes that stand there, at most 32, and their text.
pub(crate) fn write_line(
    line: &mut Vec<u8>,
    number: &mut String,
    address: u64,
    bytes: &[u8],
    words: &[u8],
) -> Result<(), AllocError>
    requires { length bytes.now ≤ 32 }
    ensures { OnOk result (line.new.items ≡ line_text address bytes.now words.now) }
{
    line.clear();
    push_address(line, number, address)?;
    line.extend_from_slice(b": ")?;
    push_hex(line, bytes)?;
    line.extend_from_slice(b"  ")?;
    line.extend_from_slice(words)?;
    line.push(b'\n')?;
    Ok(())
}

#[tactic(auto, using(crate::proofs::Addresses::eight_digits))]
fn push_address(text: &mut Vec<u8>, number: &mut String, address: u64) -> Result<(), AllocError>
    ensures { OnOk result (text.new.items ≡ text.old.items ++ address_text address) }
{
    number.clear();
    write!(number, "{address:08x}")?;
    text.extend_from_slice(number.as_bytes())
}

fn push_hex(text: &mut Vec<u8>, bytes: &[u8]) -> Result<(), AllocError>
    requires { length bytes.now ≤ 32 }
    ensures { OnOk result (text.new.items ≡ text.old.items ++ encode_lower bytes.now) }
{
    let mut digits = [0u8; 64];
    let digits = &mut digits[..2 * bytes.len()];
    match hex::encode_to_slice(bytes, digits) {
        Ok(()) => text.extend_from_slice(digits),
        Err(_) => unreachable!(),
    }
}
