// An action as it is written, between quotation marks.
ghost use Rattle.std.specs.Prelude.{◌≡◌, ◌<◌, ◌^◌, length, All, IfOk, IfSome};
ghost use Rattle.asm_text.specs.Actions.{NamesBelow};
ghost use Rattle.arm_actions.specs.Actions.{unquoted, action_pieces as pieces_of};
ghost use Rattle.tree_meaning.specs.NameTables.{table_names};

use crate::action::action_pieces;
use sled_base::NoMemory;
use sled_model::PieceList;
use std::alloc::Global;
use tree_meaning::NameTable;

/// The pieces of an action, of which `quoted` is the text with its quotation marks: `"add {a}, {b}"` has the pieces `add `, the name `a`,
/// `, ` and the name `b`. A name in braces is told by its number among those that the arm binds, fewer than 2^32. None where a `{` begins no
/// `{name}` with a name that is bound, or a `}` ends none.
pub fn pieces_of_action(
    alloc: Global,
    names: &NameTable<'_>,
    quoted: &[u8],
) -> Result<Option<PieceList>, NoMemory>
    requires { length (table_names names.now) < 2 ^ 32 }
    ensures pieces { IfOk result (λ pieces. pieces ≡ pieces_of (table_names names.now) (unquoted quoted.now)) }
    ensures named { IfOk result (λ pieces. IfSome pieces (All (NamesBelow (length (table_names names.now))))) }
{
    action_pieces(alloc, names, without_quotes(quoted))
}

// The bytes between the quotation marks.
fn without_quotes(quoted: &[u8]) -> &[u8]
    ensures { result.now ≡ unquoted quoted.now }
{
    if quoted.len() < 2 {
        return &[];
    }
    &quoted[1..quoted.len() - 1]
}
