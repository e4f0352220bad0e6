// What stands at a place of an image.
ghost use Rattle.std.specs.Prelude.{◌≡◌, ◌++◌, Some, IfOk, option_map};
ghost use Rattle.sled_model.specs.First.{first};
ghost use Rattle.arm_matching.specs.Matcher.{numbered, result_told};
ghost use Rattle.disassembler.specs.Disassembly.{IsTakenAt};
ghost use Rattle.disassembler.specs.Ready.{IsPrepared, IsArmTaken};

use crate::Disassembler;
use crate::skip::skipped;
use arm_matching::ArmResult;
use asm_text::write_action;
use decision_tree::Peek;
use image_listing::Decoder;
use instance_reading::{Place, Scratch};
use name_values::values;
use sled_base::NoMemory;
use std::alloc::Global;
use std::mem;

impl<'a> Decoder for Disassembler<'a> {
    ghost use Rattle.disassembler.specs.Disassembly.{IsTakingOf};
    ghost use Rattle.disassembler.specs.Ready.{IsPrepared};

    ghost is_taking = { λ d taking. IsPrepared d × IsTakingOf d.spec.now d.statement.now taking };

    fn take(
        &mut self,
        alloc: Global,
        place: u32,
        window: &[u8],
        words: &mut Vec<u8>,
    ) -> Result<Option<usize>, NoMemory> {
        let mut scratch = mem::replace(&mut self.scratch, Scratch::new(alloc));
        let count = taken(alloc, self, &mut scratch, place, window, words);
        self.scratch = scratch;
        count
    }
}

/// How many bytes are taken from the front of the window, which stands at the place, or None where nothing matches and nothing is
/// skipped. `words` is cleared, and then holds the text of what is taken.
fn taken(
    alloc: Global,
    d: &Disassembler<'_>,
    scratch: &mut Scratch,
    place: u32,
    window: &[u8],
    words: &mut Vec<u8>,
) -> Result<Option<usize>, NoMemory>
    requires { IsPrepared d.now }
    ensures { IfOk result (λ count. IsTakenAt d.now.spec.now d.now.statement.now place window.now (option_map (λ n. (n, words.new.items)) count)) }
{
    words.clear();
    let mut peek = Peek::new(window);
    match d.matcher.first_result(&mut peek) {
        Some(found) => {
            let count = arm_taken(alloc, d, scratch, place, window, found, words)?;
            Ok(Some(count))
        }
        None => skipped(d.statement, window, words),
    }
}

/// How many bytes the first result takes, which was found in the window. The text of its arm's action is appended.
fn arm_taken(
    alloc: Global,
    d: &Disassembler<'_>,
    scratch: &mut Scratch,
    place: u32,
    window: &[u8],
    found: ArmResult<'_>,
    words: &mut Vec<u8>,
) -> Result<usize, NoMemory>
    requires prepared { IsPrepared d.now }
    requires found { Some (result_told d.now.spec.now.tokens window.now found) ≡ option_map numbered (first d.now.spec.now d.now.statement.now window.now) }
    ensures { IfOk result (λ n. IsArmTaken d.now.spec.now d.now.statement.now place window.now n words.old.items words.new.items) }
{
    let Some(arm) = d.statement.arms.get(found.arm) else {
        unreachable!()
    };
    let spots = found.skeleton.entries.as_slice();
    let at = Place {
        spec: d.spec,
        window,
        location: place,
    };
    let values = values(alloc, &d.plans, scratch, &at, arm, spots)?;
    write_action(alloc, d.spec, arm, &values, words)?;
    Ok(found.len as usize)
}
