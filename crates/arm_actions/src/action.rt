// The text of an action, in pieces.
ghost use Rattle.std.specs.Prelude.{◌≡◌, ◌<◌, ◌≤◌, ◌^◌, ◌++◌, ◌+◌, ◌∷◌, [], length, IfOk, OnOk, not, ◌==◌, take, drop, ℕ, List};
ghost use Rattle.arm_actions.specs.Actions as of;
ghost use Rattle.tree_meaning.specs.NameTables.{table_names};
ghost use Rattle.arm_actions.specs.Steps.{Steps, StepsNamed};

use sled_base::NoMemory;
use sled_model::{Name, Piece, PieceList};
use std::alloc::Global;
use tree_meaning::NameTable;

/// Where a step through the text leads.
#[derive(Clone, Copy)]
enum Step<'a> {
    /// The text is at its end.
    End,
    /// A brace stands where none may, or no name is bound that is spelled so.
    Wrong,
    /// This is left of the text.
    Rest(&'a [u8]),
}

/// The pieces of the text, or None where a `{` begins no `{name}` with one of the names, or a `}` ends none.
pub(crate) fn action_pieces(
    alloc: Global,
    names: &NameTable<'_>,
    text: &[u8],
) -> Result<Option<PieceList>, NoMemory>
    requires { length (table_names names.now) < 2 ^ 32 }
    ensures { IfOk result (λ r. r ≡ of.action_pieces (table_names names.now) text.now) }
{
    let mut found = PieceList::new(alloc);
    let mut rest = text;
    'text: loop {
        match take_step(alloc, names, rest, &mut found)? {
            Step::End => return Ok(Some(found)),
            Step::Wrong => return Ok(None),
            Step::Rest(later) => rest = later,
        }
    }
}

// Words, and a name in braces behind them.
fn take_step<'a>(
    alloc: Global,
    names: &NameTable<'_>,
    rest: &'a [u8],
    found: &mut PieceList,
) -> Result<Step<'a>, NoMemory>
    requires { length (table_names names.now) < 2 ^ 32 }
    ensures { IfOk result (λ step. Steps (table_names names.now) rest.now found.old found.new step) }
{
    let len = words_len(rest);
    push_words(alloc, front(rest, len), found)?;
    if len == rest.len() {
        return Ok(Step::End);
    }
    if rest[len] == b'}' {
        return Ok(Step::Wrong);
    }
    named(names, tail(rest, len + 1), found)
}

fn front(text: &[u8], count: usize) -> &[u8]
    requires { count ≤ length text.now }
    ensures { result.now ≡ take count text.now }
{
    &text[..count]
}

// What stands behind the first bytes.
fn tail(text: &[u8], at: usize) -> &[u8]
    requires { at ≤ length text.now }
    ensures { result.now ≡ drop at text.now }
{
    &text[at..]
}

// A name, up to its closing brace.
fn named<'a>(
    names: &NameTable<'_>,
    after: &'a [u8],
    found: &mut PieceList,
) -> Result<Step<'a>, NoMemory>
    requires { length (table_names names.now) < 2 ^ 32 }
    ensures { IfOk result (λ step. StepsNamed (table_names names.now) (of.inside (table_names names.now) [] after.now) (length after.now + 1) found.old found.new step) }
{
    let len = name_len(after);
    if len == after.len() {
        return Ok(Step::Wrong);
    }
    let Some(k) = names.find(front(after, len)) else {
        return Ok(Step::Wrong);
    };
    found.push(Piece::Bound(k as u32))?;
    Ok(Step::Rest(tail(after, len + 1)))
}

fn push_words(alloc: Global, words: &[u8], found: &mut PieceList) -> Result<(), NoMemory>
    ensures { OnOk result (found.new ≡ found.old ++ of.words_piece words.now) }
{
    if !words.is_empty() {
        let words = Name::from_slice(alloc, words)?;
        found.push(Piece::Words(words))?;
    }
    Ok(())
}

// How many bytes stand before the first brace.
fn words_len(text: &[u8]) -> usize
    ensures value { result ≡ of.run_len of.is_no_brace text.now }
    ensures within { result ≤ length text.now }
{
    let mut len = 0;
    while len < text.len() && text[len] != b'{' && text[len] != b'}' {
        len += 1;
    }
    len
}

// How many bytes stand before the first closing brace.
fn name_len(text: &[u8]) -> usize
    ensures value { result ≡ of.run_len of.is_no_close text.now }
    ensures within { result ≤ length text.now }
{
    let mut len = 0;
    while len < text.len() && text[len] != b'}' {
        len += 1;
    }
    len
}
