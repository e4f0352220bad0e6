//! Patterns, by recursive descent.

ghost use Rattle.std.specs.Prelude.{◌≡◌};
ghost use Rattle.sled_parser.specs.Pieces.{Reads};
ghost use Rattle.sled_parser.specs.Grammar as spec;

use crate::class::Class;
use crate::cursor::Cursor;
use crate::fault::Fault;
use crate::tree::{
    ArgumentTree, ArgumentTreeList, PatternTree, PatternTreeList, RelationTree, Spelling,
    SpellingList, ValueTree,
};
use sqlite_items::Boxed;
use std::alloc::Global;

/// The operator of a chain.
#[derive(Clone, Copy, Debug, PartialEq, Eq)]
pub enum Level {
    Either,
    Chain,
    Both,
}

fn separator(level: Level) -> Class
    ensures { result ≡ spec.separator level }
{
    match level {
        Level::Either => Class::Bar,
        Level::Chain => Class::Semicolon,
        Level::Both => Class::And,
    }
}

fn node(level: Level, items: PatternTreeList) -> PatternTree
    ensures { result ≡ spec.node level items }
{
    match level {
        Level::Either => PatternTree::Either(items),
        Level::Chain => PatternTree::Chain(items),
        Level::Both => PatternTree::Both(items),
    }
}

#[tactic(auto, unfolding(crate::specs::Grammar::joined))]
fn joined(level: Level, mut items: PatternTreeList) -> PatternTree
    ensures { result ≡ spec.joined level items }
{
    if items.len() == 1 {
        return items.remove(0);
    }
    node(level, items)
}

/// The text of a number, if one comes next.
#[tactic(auto, unfolding(crate::specs::Grammar::number))]
pub fn number(alloc: Global, cursor: &mut Cursor<'_>) -> Result<Spelling, Fault>
    ensures { Reads (spec.number cursor.old) result cursor.new }
{
    if cursor.sees(Class::Number) {
        cursor.take(alloc)
    } else {
        Err(Fault::Syntax)
    }
}

#[tactic(auto, unfolding(crate::specs::Grammar::numbers_from))]
fn numbers(alloc: Global, cursor: &mut Cursor<'_>, first: Spelling) -> Result<SpellingList, Fault>
    ensures { Reads (spec.numbers first cursor.old) result cursor.new }
{
    let mut found = SpellingList::new(alloc);
    found.push(first)?;
    for _turn in 0..cursor.left() {
        if !cursor.sees(Class::Number) {
            return Ok(found);
        }
        found.push(cursor.take(alloc)?)?;
    }
    Ok(found)
}

#[tactic(auto, unfolding(crate::specs::Grammar::range_from))]
fn range(alloc: Global, cursor: &mut Cursor<'_>, first: Spelling) -> Result<ValueTree, Fault>
    ensures { Reads (spec.range_from first cursor.old) result cursor.new }
{
    let last = number(alloc, cursor)?;
    cursor.expect(Class::CloseBrace)?;
    Ok(ValueTree::Range { first, last })
}

#[tactic(auto, unfolding(crate::specs::Grammar::listed_from))]
fn listed(alloc: Global, cursor: &mut Cursor<'_>, first: Spelling) -> Result<ValueTree, Fault>
    ensures { Reads (spec.listed_from first cursor.old) result cursor.new }
{
    let all = numbers(alloc, cursor, first)?;
    cursor.expect(Class::CloseBrace)?;
    Ok(ValueTree::Listed(all))
}

#[tactic(auto, unfolding(crate::specs::Grammar::braced))]
fn braced(alloc: Global, cursor: &mut Cursor<'_>) -> Result<ValueTree, Fault>
    ensures { Reads (spec.braced cursor.old) result cursor.new }
{
    let first = number(alloc, cursor)?;
    if cursor.eat(Class::To) {
        range(alloc, cursor, first)
    } else {
        listed(alloc, cursor, first)
    }
}

#[tactic(auto, unfolding(crate::specs::Grammar::value_of, crate::specs::Grammar::value_by))]
fn value(alloc: Global, cursor: &mut Cursor<'_>) -> Result<ValueTree, Fault>
    ensures { Reads (spec.value_of cursor.old) result cursor.new }
{
    if cursor.eat(Class::OpenBrace) {
        return braced(alloc, cursor);
    }
    Ok(ValueTree::One(number(alloc, cursor)?))
}

fn relation(class: Class) -> Option<RelationTree>
    ensures { result ≡ spec.relation_of class }
{
    match class {
        Class::Equal => Some(RelationTree::Equal),
        Class::Differs => Some(RelationTree::Differs),
        Class::Below => Some(RelationTree::Below),
        Class::AtMost => Some(RelationTree::AtMost),
        Class::Above => Some(RelationTree::Above),
        Class::AtLeast => Some(RelationTree::AtLeast),
        _ => None,
    }
}

#[cycle(arguments)]
#[tactic(auto, unfolding(crate::specs::Grammar::inner))]
fn inner(
    alloc: Global,
    cursor: &mut Cursor<'_>,
    depth: u32,
    word: Spelling,
) -> Result<ArgumentTree, Fault>
    ensures { Reads (spec.inner (spec.arguments_at depth) word cursor.old) result cursor.new }
{
    if !cursor.eat(Class::Open) {
        return Ok(ArgumentTree::Name(word));
    }
    let arguments = arguments(alloc, cursor, depth)?;
    Ok(ArgumentTree::Inner {
        constructor: word,
        arguments,
    })
}

#[cycle(arguments)]
#[tactic(auto, unfolding(crate::specs::Grammar::argument_of))]
fn argument(alloc: Global, cursor: &mut Cursor<'_>, depth: u32) -> Result<ArgumentTree, Fault>
    ensures { Reads (spec.argument_of (spec.arguments_at depth) cursor.old) result cursor.new }
{
    match cursor.ahead() {
        Class::Underscore => {
            cursor.step();
            Ok(ArgumentTree::Any)
        }
        Class::Name => {
            let word = cursor.take(alloc)?;
            inner(alloc, cursor, depth, word)
        }
        _ => Err(Fault::Syntax),
    }
}

/// One argument or more, with commas between.
#[cycle(arguments)]
#[tactic(auto, unfolding(crate::specs::Grammar::chain_from))]
fn argument_chain(
    alloc: Global,
    cursor: &mut Cursor<'_>,
    depth: u32,
) -> Result<ArgumentTreeList, Fault>
    ensures { Reads (spec.chain (spec.argument_of (spec.arguments_at depth)) Class.Comma cursor.old) result cursor.new }
{
    let mut found = ArgumentTreeList::new(alloc);
    for _turn in 0..cursor.left() {
        found.push(argument(alloc, cursor, depth)?)?;
        if !cursor.eat(Class::Comma) {
            return Ok(found);
        }
    }
    Err(Fault::Syntax)
}

/// What stands after an opening bracket, and the closing one.
#[cycle(arguments)]
#[tactic(auto, unfolding(crate::specs::Grammar::arguments_at, crate::specs::Grammar::arguments))]
fn arguments(alloc: Global, cursor: &mut Cursor<'_>, depth: u32) -> Result<ArgumentTreeList, Fault>
    ensures { Reads (spec.arguments_at depth cursor.old) result cursor.new }
{
    if depth == 0 {
        return Err(Fault::Syntax);
    }
    if cursor.eat(Class::Close) {
        return Ok(ArgumentTreeList::new(alloc));
    }
    let found = argument_chain(alloc, cursor, depth - 1)?;
    cursor.expect(Class::Close)?;
    Ok(found)
}

// One limit, application or name.
#[tactic(auto, unfolding(crate::specs::Grammar::limited, crate::specs::Grammar::unapplied))]
fn limited(alloc: Global, cursor: &mut Cursor<'_>, word: Spelling) -> Result<PatternTree, Fault>
    ensures { Reads (spec.unapplied word cursor.old) result cursor.new }
{
    let Some(relation) = relation(cursor.ahead()) else {
        return Ok(PatternTree::Word(word));
    };
    cursor.step();
    Ok(PatternTree::Limit {
        field: word,
        relation,
        value: value(alloc, cursor)?,
    })
}

#[tactic(auto, unfolding(crate::specs::Grammar::named))]
fn named(
    alloc: Global,
    cursor: &mut Cursor<'_>,
    depth: u32,
    word: Spelling,
) -> Result<PatternTree, Fault>
    ensures { Reads (spec.named (spec.arguments_at depth) word cursor.old) result cursor.new }
{
    if !cursor.eat(Class::Open) {
        return limited(alloc, cursor, word);
    }
    let arguments = arguments(alloc, cursor, depth)?;
    Ok(PatternTree::Apply {
        constructor: word,
        arguments,
    })
}

#[cycle(pattern)]
#[tactic(auto, unfolding(crate::specs::Grammar::grouped))]
fn grouped(alloc: Global, cursor: &mut Cursor<'_>, depth: u32) -> Result<PatternTree, Fault>
    ensures { Reads (spec.grouped (spec.pattern_at depth) cursor.old) result cursor.new }
{
    let inner = pattern(alloc, cursor, depth)?;
    cursor.expect(Class::Close)?;
    Ok(PatternTree::Group(Boxed::new(alloc, inner)?))
}

#[cycle(pattern)]
#[tactic(auto, unfolding(crate::specs::Grammar::atom))]
fn atom(alloc: Global, cursor: &mut Cursor<'_>, depth: u32) -> Result<PatternTree, Fault>
    ensures { Reads (spec.atom (spec.pattern_at depth) (spec.arguments_at depth) cursor.old) result cursor.new }
{
    match cursor.ahead() {
        Class::Epsilon => {
            cursor.step();
            Ok(PatternTree::Empty)
        }
        Class::Open => {
            cursor.step();
            grouped(alloc, cursor, depth)
        }
        Class::Name => {
            let word = cursor.take(alloc)?;
            named(alloc, cursor, depth, word)
        }
        _ => Err(Fault::Syntax),
    }
}

#[cycle(pattern)]
#[tactic(auto, unfolding(crate::specs::Grammar::loose))]
fn loose(alloc: Global, cursor: &mut Cursor<'_>, depth: u32) -> Result<PatternTree, Fault>
    ensures { Reads (spec.loose (spec.pattern_at depth) (spec.arguments_at depth) cursor.old) result cursor.new }
{
    let atom = atom(alloc, cursor, depth)?;
    if cursor.eat(Class::Ellipsis) {
        return Ok(PatternTree::Loose(Boxed::new(alloc, atom)?));
    }
    Ok(atom)
}

#[cycle(pattern)]
#[tactic(auto, unfolding(crate::specs::Grammar::post, crate::specs::Grammar::labelled))]
fn post(alloc: Global, cursor: &mut Cursor<'_>, depth: u32) -> Result<PatternTree, Fault>
    ensures { Reads (spec.post (spec.pattern_at depth) (spec.arguments_at depth) cursor.old) result cursor.new }
{
    if !cursor.sees_label() {
        return loose(alloc, cursor, depth);
    }
    let label = cursor.take(alloc)?;
    cursor.step();
    let pattern = loose(alloc, cursor, depth)?;
    Ok(PatternTree::Labelled {
        label,
        pattern: Boxed::new(alloc, pattern)?,
    })
}

#[cycle(pattern)]
#[tactic(auto, unfolding(crate::specs::Grammar::at_level))]
fn member(
    alloc: Global,
    cursor: &mut Cursor<'_>,
    depth: u32,
    level: Level,
) -> Result<PatternTree, Fault>
    ensures { Reads (spec.member (spec.pattern_at depth) (spec.arguments_at depth) level cursor.old) result cursor.new }
{
    match level {
        Level::Either => chain(alloc, cursor, depth, Level::Chain),
        Level::Chain => chain(alloc, cursor, depth, Level::Both),
        Level::Both => post(alloc, cursor, depth),
    }
}

/// One member or more, with the level's operator between.
#[cycle(pattern)]
#[tactic(auto, unfolding(crate::specs::Grammar::chain_from))]
fn members(
    alloc: Global,
    cursor: &mut Cursor<'_>,
    depth: u32,
    level: Level,
) -> Result<PatternTreeList, Fault>
    ensures { Reads (spec.chain (spec.member (spec.pattern_at depth) (spec.arguments_at depth) level) (spec.separator level) cursor.old) result cursor.new }
{
    let mut found = PatternTreeList::new(alloc);
    for _turn in 0..cursor.left() {
        found.push(member(alloc, cursor, depth, level)?)?;
        if !cursor.eat(separator(level)) {
            return Ok(found);
        }
    }
    Err(Fault::Syntax)
}

#[cycle(pattern)]
#[tactic(auto, unfolding(crate::specs::Grammar::at_level, crate::specs::Grammar::level_of))]
fn chain(
    alloc: Global,
    cursor: &mut Cursor<'_>,
    depth: u32,
    level: Level,
) -> Result<PatternTree, Fault>
    ensures { Reads (spec.at_level (spec.pattern_at depth) (spec.arguments_at depth) level cursor.old) result cursor.new }
{
    let found = members(alloc, cursor, depth, level)?;
    Ok(joined(level, found))
}

/// A pattern in which at most `depth` - 1 brackets open inside one another.
#[cycle(pattern)]
#[tactic(auto, unfolding(crate::specs::Grammar::pattern_at))]
pub fn pattern(alloc: Global, cursor: &mut Cursor<'_>, depth: u32) -> Result<PatternTree, Fault>
    ensures { Reads (spec.pattern_at depth cursor.old) result cursor.new }
{
    if depth == 0 {
        return Err(Fault::Syntax);
    }
    chain(alloc, cursor, depth - 1, Level::Either)
}
