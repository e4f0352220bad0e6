// Skips.
ghost use Rattle.std.specs.Prelude.{◌≡◌, ◌++◌, [], codes, decimal, OnOk, IfOk, option_map};
ghost use Rattle.disassembler.specs.Disassembly.{skip_taken};

use itoa::Buffer;
use sled_base::NoMemory;
use sled_model::Statement;

/// How many bytes the statement skips of these, or None where it skips none. Their text is appended.
pub(crate) fn skipped(
    statement: &Statement,
    bytes: &[u8],
    words: &mut Vec<u8>,
) -> Result<Option<usize>, NoMemory>
    ensures { IfOk result (λ count. words.old.items ≡ [] → option_map (skip_taken bytes.now) statement.now.skip ≡ option_map (λ n. (n, words.new.items)) count) }
{
    let Some(most) = statement.skip else {
        return Ok(None);
    };
    let count = bytes.len().min(most as usize);
    push_skip(words, count)?;
    Ok(Some(count))
}

/// Appends the text of so many skipped bytes.
fn push_skip(words: &mut Vec<u8>, count: usize) -> Result<(), NoMemory>
    ensures { OnOk result (words.new.items ≡ words.old.items ++ (codes ".skip " ++ decimal count)) }
{
    words.extend_from_slice(b".skip ")?;
    let mut digits = Buffer::new();
    words.extend_from_slice(digits.format(count as u64).as_bytes())?;
    Ok(())
}
