//! Equations, by recursive descent.

ghost use Rattle.std.specs.Prelude.{◌≡◌};
ghost use Rattle.sled_parser.specs.Pieces.{Reads};
ghost use Rattle.sled_parser.specs.EquationGrammar as spec;
ghost use Rattle.sled_parser.specs.Grammar.{chain};

use crate::class::Class;
use crate::cursor::Cursor;
use crate::fault::Fault;
use crate::pattern::number;
use crate::tree::{EqTree, EqTreeList, PlaceTree, Spelling, SumTree, TermTree, TermTreeList};
use std::alloc::Global;

/// The text of a name, if one comes next.
#[tactic(auto, unfolding(crate::specs::EquationGrammar::name))]
pub fn name(alloc: Global, cursor: &mut Cursor<'_>) -> Result<Spelling, Fault>
    ensures { Reads (spec.name cursor.old) result cursor.new }
{
    if cursor.sees(Class::Name) {
        cursor.take(alloc)
    } else {
        Err(Fault::Syntax)
    }
}

/// The bits of a place, which stand after `@`.
#[tactic(auto, unfolding(crate::specs::EquationGrammar::slice_of))]
fn slice(alloc: Global, cursor: &mut Cursor<'_>, word: Spelling) -> Result<PlaceTree, Fault>
    ensures { Reads (spec.slice_of word cursor.old) result cursor.new }
{
    cursor.expect(Class::OpenBracket)?;
    let lo = number(alloc, cursor)?;
    cursor.expect(Class::Colon)?;
    let hi = number(alloc, cursor)?;
    cursor.expect(Class::CloseBracket)?;
    Ok(PlaceTree::Slice { word, lo, hi })
}

#[tactic(auto, unfolding(crate::specs::EquationGrammar::sliced))]
fn sliced(alloc: Global, cursor: &mut Cursor<'_>, word: Spelling) -> Result<PlaceTree, Fault>
    ensures { Reads (spec.sliced word cursor.old) result cursor.new }
{
    if cursor.eat(Class::At) {
        return slice(alloc, cursor, word);
    }
    Ok(PlaceTree::Word(word))
}

#[tactic(auto, unfolding(crate::specs::EquationGrammar::placed))]
fn placed(alloc: Global, cursor: &mut Cursor<'_>, word: Spelling) -> Result<PlaceTree, Fault>
    ensures { Reads (spec.placed word cursor.old) result cursor.new }
{
    if cursor.eat(Class::Bang) {
        return Ok(PlaceTree::Extended(word));
    }
    sliced(alloc, cursor, word)
}

#[tactic(auto, unfolding(crate::specs::EquationGrammar::place_of))]
fn place(alloc: Global, cursor: &mut Cursor<'_>) -> Result<PlaceTree, Fault>
    ensures { Reads (spec.place_of cursor.old) result cursor.new }
{
    let word = name(alloc, cursor)?;
    placed(alloc, cursor, word)
}

/// A term that begins with a number.
#[tactic(auto, unfolding(crate::specs::EquationGrammar::numbered))]
fn numbered(
    alloc: Global,
    cursor: &mut Cursor<'_>,
    minus: bool,
    number: Spelling,
) -> Result<TermTree, Fault>
    ensures { Reads (spec.numbered minus number cursor.old) result cursor.new }
{
    if !cursor.eat(Class::Star) {
        return Ok(TermTree::Number { minus, number });
    }
    let place = place(alloc, cursor)?;
    Ok(TermTree::Place {
        minus,
        coefficient: Some(number),
        place,
    })
}

/// A term without its sign.
#[tactic(auto, unfolding(crate::specs::EquationGrammar::term_of))]
fn term(alloc: Global, cursor: &mut Cursor<'_>, minus: bool) -> Result<TermTree, Fault>
    ensures { Reads (spec.term_of minus cursor.old) result cursor.new }
{
    if cursor.sees(Class::Number) {
        let number = cursor.take(alloc)?;
        return numbered(alloc, cursor, minus, number);
    }
    let place = place(alloc, cursor)?;
    Ok(TermTree::Place {
        minus,
        coefficient: None,
        place,
    })
}

#[tactic(auto, unfolding(crate::specs::EquationGrammar::first_term))]
fn first_term(alloc: Global, cursor: &mut Cursor<'_>) -> Result<TermTree, Fault>
    ensures { Reads (spec.first_term cursor.old) result cursor.new }
{
    let minus = cursor.eat(Class::Minus);
    term(alloc, cursor, minus)
}

/// A sign and a term.
#[tactic(auto, unfolding(crate::specs::EquationGrammar::later_term))]
fn later_term(alloc: Global, cursor: &mut Cursor<'_>) -> Result<TermTree, Fault>
    ensures { Reads (spec.later_term cursor.old) result cursor.new }
{
    let minus = cursor.sees(Class::Minus);
    cursor.step();
    term(alloc, cursor, minus)
}

fn sees_sign(cursor: &Cursor<'_>) -> bool
    ensures { result ≡ spec.sees_sign cursor.now }
{
    cursor.sees(Class::Minus) || cursor.sees(Class::Plus)
}

/// The terms of a sum from its first on.
#[tactic(auto, unfolding(crate::specs::EquationGrammar::many_from))]
fn terms(alloc: Global, cursor: &mut Cursor<'_>, first: TermTree) -> Result<TermTreeList, Fault>
    ensures { Reads (spec.terms_after first cursor.old) result cursor.new }
{
    let mut found = TermTreeList::new(alloc);
    found.push(first)?;
    for _turn in 0..cursor.left() {
        if !sees_sign(cursor) {
            return Ok(found);
        }
        found.push(later_term(alloc, cursor)?)?;
    }
    Ok(found)
}

#[tactic(auto, unfolding(crate::specs::EquationGrammar::sum_of))]
fn sum(alloc: Global, cursor: &mut Cursor<'_>) -> Result<SumTree, Fault>
    ensures { Reads (spec.sum_of cursor.old) result cursor.new }
{
    let first = first_term(alloc, cursor)?;
    let terms = terms(alloc, cursor, first)?;
    Ok(SumTree { terms })
}

#[tactic(auto, unfolding(crate::specs::EquationGrammar::equation_of))]
fn equation(alloc: Global, cursor: &mut Cursor<'_>) -> Result<EqTree, Fault>
    ensures { Reads (spec.equation_of cursor.old) result cursor.new }
{
    let left = sum(alloc, cursor)?;
    cursor.expect(Class::Equal)?;
    let right = sum(alloc, cursor)?;
    Ok(EqTree { left, right })
}

/// One equation or more, with commas between.
#[tactic(auto, unfolding(crate::specs::Grammar::chain_from))]
fn equation_chain(alloc: Global, cursor: &mut Cursor<'_>) -> Result<EqTreeList, Fault>
    ensures { Reads (chain spec.equation_of Class.Comma cursor.old) result cursor.new }
{
    let mut found = EqTreeList::new(alloc);
    for _turn in 0..cursor.left() {
        found.push(equation(alloc, cursor)?)?;
        if !cursor.eat(Class::Comma) {
            return Ok(found);
        }
    }
    Err(Fault::Syntax)
}

/// The equations of a constructor, in braces. Without braces there are none.
#[tactic(auto, unfolding(crate::specs::EquationGrammar::equations_of, crate::specs::EquationGrammar::braced_equations))]
pub fn equations(alloc: Global, cursor: &mut Cursor<'_>) -> Result<EqTreeList, Fault>
    ensures { Reads (spec.braced_equations cursor.old) result cursor.new }
{
    if !cursor.eat(Class::OpenBrace) {
        return Ok(EqTreeList::new(alloc));
    }
    let found = equation_chain(alloc, cursor)?;
    cursor.expect(Class::CloseBrace)?;
    Ok(found)
}
