//! Declarations, by recursive descent.

ghost use Rattle.std.specs.Prelude.{◌≡◌};
ghost use Rattle.sled_parser.specs.Pieces.{Reads};
ghost use Rattle.sled_parser.specs.Grammar.{chain};
ghost use Rattle.sled_parser.specs.DeclarationGrammar.{ReadsAll};
ghost use Rattle.sled_parser.specs.DeclarationGrammar as spec;
ghost use Rattle.sled_parser.specs.Declarations as description;

use crate::class::Class;
use crate::cursor::Cursor;
use crate::equation::{equations, name};
use crate::fault::Fault;
use crate::pattern::{number, pattern};
use crate::tree::{
    Decl, FieldTree, FieldTreeList, ItemTree, ItemTreeList, OperandTree, OperandTreeList, Section,
    Spelling,
};
use std::alloc::Global;

#[tactic(auto, unfolding(crate::specs::DeclarationGrammar::field_of))]
fn field(alloc: Global, cursor: &mut Cursor<'_>) -> Result<FieldTree, Fault>
    ensures { Reads (spec.field_of cursor.old) result cursor.new }
{
    let name = name(alloc, cursor)?;
    let lo = number(alloc, cursor)?;
    cursor.expect(Class::Colon)?;
    let hi = number(alloc, cursor)?;
    Ok(FieldTree { name, lo, hi })
}

/// The fields of a class, as many as come.
#[tactic(auto, unfolding(crate::specs::EquationGrammar::many_from))]
fn fields(alloc: Global, cursor: &mut Cursor<'_>) -> Result<FieldTreeList, Fault>
    ensures { Reads (spec.fields_of cursor.old) result cursor.new }
{
    let mut found = FieldTreeList::new(alloc);
    for _turn in 0..cursor.left() {
        if !cursor.sees(Class::Name) {
            return Ok(found);
        }
        found.push(field(alloc, cursor)?)?;
    }
    Ok(found)
}

/// A class after its name.
#[tactic(auto, unfolding(crate::specs::DeclarationGrammar::class_of))]
fn class_after(alloc: Global, cursor: &mut Cursor<'_>, name: Spelling) -> Result<Decl, Fault>
    ensures { Reads (spec.class_of name cursor.old) result cursor.new }
{
    cursor.expect(Class::Open)?;
    let width = number(alloc, cursor)?;
    let little = cursor.eat(Class::Little);
    cursor.expect(Class::Close)?;
    let fields = fields(alloc, cursor)?;
    Ok(Decl::Class {
        name,
        width,
        little,
        fields,
    })
}

/// A class after `fields`.
#[tactic(auto, unfolding(crate::specs::DeclarationGrammar::class_decl))]
fn class(alloc: Global, cursor: &mut Cursor<'_>) -> Result<Decl, Fault>
    ensures { Reads (spec.class_decl cursor.old) result cursor.new }
{
    cursor.expect(Class::Of)?;
    let name = name(alloc, cursor)?;
    class_after(alloc, cursor, name)
}

#[tactic(auto, unfolding(crate::specs::DeclarationGrammar::item_of))]
fn item(alloc: Global, cursor: &mut Cursor<'_>) -> Result<ItemTree, Fault>
    ensures { Reads (spec.item_of cursor.old) result cursor.new }
{
    match cursor.ahead() {
        Class::Name => Ok(ItemTree::Name(cursor.take(alloc)?)),
        Class::Underscore => {
            cursor.step();
            Ok(ItemTree::Skip)
        }
        _ => Err(Fault::Syntax),
    }
}

fn sees_item(cursor: &Cursor<'_>) -> bool
    ensures { result ≡ spec.sees_item cursor.now }
{
    cursor.sees(Class::Name) || cursor.sees(Class::Underscore)
}

/// The items of a group, as many as come.
#[tactic(auto, unfolding(crate::specs::EquationGrammar::many_from))]
fn items(alloc: Global, cursor: &mut Cursor<'_>) -> Result<ItemTreeList, Fault>
    ensures { Reads (spec.items_from cursor.old) result cursor.new }
{
    let mut found = ItemTreeList::new(alloc);
    for _turn in 0..cursor.left() {
        if !sees_item(cursor) {
            return Ok(found);
        }
        found.push(item(alloc, cursor)?)?;
    }
    Ok(found)
}

/// The list of a group, in brackets. Without brackets the definition is of one pattern.
#[tactic(auto, unfolding(crate::specs::DeclarationGrammar::items_of, crate::specs::DeclarationGrammar::listed_items))]
fn group(alloc: Global, cursor: &mut Cursor<'_>) -> Result<Option<ItemTreeList>, Fault>
    ensures { Reads (spec.items_of cursor.old) result cursor.new }
{
    if !cursor.eat(Class::OpenBracket) {
        return Ok(None);
    }
    let found = items(alloc, cursor)?;
    cursor.expect(Class::CloseBracket)?;
    Ok(Some(found))
}

#[tactic(auto, unfolding(crate::specs::DeclarationGrammar::definition_at))]
fn definition(alloc: Global, cursor: &mut Cursor<'_>, depth: u32) -> Result<Decl, Fault>
    ensures { Reads (spec.definition_at depth cursor.old) result cursor.new }
{
    let name = name(alloc, cursor)?;
    let items = group(alloc, cursor)?;
    cursor.expect(Class::Is)?;
    let pattern = pattern(alloc, cursor, depth)?;
    Ok(Decl::Definition {
        name,
        items,
        pattern,
    })
}

#[tactic(auto, unfolding(crate::specs::DeclarationGrammar::typed))]
fn typed(alloc: Global, cursor: &mut Cursor<'_>, word: Spelling) -> Result<OperandTree, Fault>
    ensures { Reads (spec.typed word cursor.old) result cursor.new }
{
    if !cursor.eat(Class::Colon) {
        return Ok(OperandTree::Word(word));
    }
    let result = name(alloc, cursor)?;
    Ok(OperandTree::Typed { name: word, result })
}

#[tactic(auto, unfolding(crate::specs::DeclarationGrammar::operand_of, crate::specs::DeclarationGrammar::operand_after))]
fn operand(alloc: Global, cursor: &mut Cursor<'_>) -> Result<OperandTree, Fault>
    ensures { Reads (spec.operand_of cursor.old) result cursor.new }
{
    let word = name(alloc, cursor)?;
    if cursor.eat(Class::Bang) {
        return Ok(OperandTree::Extended(word));
    }
    typed(alloc, cursor, word)
}

/// One operand or more, with commas between.
#[tactic(auto, unfolding(crate::specs::Grammar::chain_from))]
fn operand_chain(alloc: Global, cursor: &mut Cursor<'_>) -> Result<OperandTreeList, Fault>
    ensures { Reads (chain spec.operand_of Class.Comma cursor.old) result cursor.new }
{
    let mut found = OperandTreeList::new(alloc);
    for _turn in 0..cursor.left() {
        found.push(operand(alloc, cursor)?)?;
        if !cursor.eat(Class::Comma) {
            return Ok(found);
        }
    }
    Err(Fault::Syntax)
}

/// What stands after an opening bracket, and the closing one.
#[tactic(auto, unfolding(crate::specs::DeclarationGrammar::operands_of))]
fn operands(alloc: Global, cursor: &mut Cursor<'_>) -> Result<OperandTreeList, Fault>
    ensures { Reads (spec.operands_of cursor.old) result cursor.new }
{
    if cursor.eat(Class::Close) {
        return Ok(OperandTreeList::new(alloc));
    }
    let found = operand_chain(alloc, cursor)?;
    cursor.expect(Class::Close)?;
    Ok(found)
}

#[tactic(auto, unfolding(crate::specs::DeclarationGrammar::result_of))]
fn result_name(alloc: Global, cursor: &mut Cursor<'_>) -> Result<Option<Spelling>, Fault>
    ensures { Reads (spec.result_of cursor.old) result cursor.new }
{
    if !cursor.eat(Class::Colon) {
        return Ok(None);
    }
    let word = name(alloc, cursor)?;
    Ok(Some(word))
}

/// A constructor after its operands.
#[tactic(auto, unfolding(crate::specs::DeclarationGrammar::constructor_with))]
fn constructor_with(
    alloc: Global,
    cursor: &mut Cursor<'_>,
    depth: u32,
    opcode: Spelling,
    operands: OperandTreeList,
) -> Result<Decl, Fault>
    ensures { Reads (spec.constructor_with depth opcode operands cursor.old) result cursor.new }
{
    let result = result_name(alloc, cursor)?;
    let equations = equations(alloc, cursor)?;
    cursor.expect(Class::Is)?;
    let body = pattern(alloc, cursor, depth)?;
    Ok(Decl::ConstructorDecl {
        opcode,
        operands,
        result,
        equations,
        body,
    })
}

#[tactic(auto, unfolding(crate::specs::DeclarationGrammar::constructor_at))]
fn constructor(alloc: Global, cursor: &mut Cursor<'_>, depth: u32) -> Result<Decl, Fault>
    ensures { Reads (spec.constructor_at depth cursor.old) result cursor.new }
{
    let opcode = name(alloc, cursor)?;
    cursor.expect(Class::Open)?;
    let operands = operands(alloc, cursor)?;
    constructor_with(alloc, cursor, depth, opcode, operands)
}

/// A definition of the section in which it stands. There are none before the first heading.
fn definition_in(
    alloc: Global,
    cursor: &mut Cursor<'_>,
    depth: u32,
    section: Option<Section>,
) -> Result<Decl, Fault>
    ensures { Reads (spec.definition_in depth section cursor.old) result cursor.new }
{
    match section {
        None => Err(Fault::Syntax),
        Some(Section::Patterns) => definition(alloc, cursor, depth),
        Some(Section::Constructors) => constructor(alloc, cursor, depth),
    }
}

#[tactic(auto, unfolding(crate::specs::DeclarationGrammar::declaration_at))]
fn declaration(
    alloc: Global,
    cursor: &mut Cursor<'_>,
    depth: u32,
    section: Option<Section>,
) -> Result<Decl, Fault>
    ensures { Reads (spec.declaration_at depth section cursor.old) result cursor.new }
{
    match cursor.ahead() {
        Class::Fields => {
            cursor.step();
            class(alloc, cursor)
        }
        Class::Patterns => {
            cursor.step();
            Ok(Decl::Heading(Section::Patterns))
        }
        Class::Constructors => {
            cursor.step();
            Ok(Decl::Heading(Section::Constructors))
        }
        _ => definition_in(alloc, cursor, depth, section),
    }
}

/// The section in which the next declaration stands.
fn section_after(section: Option<Section>, decl: &Decl) -> Option<Section>
    ensures { result ≡ description.section_after section decl.now }
{
    match decl {
        Decl::Class { .. } => None,
        Decl::Heading(heading) => Some(*heading),
        Decl::Definition { .. } => section,
        Decl::ConstructorDecl { .. } => section,
    }
}

/// The declarations of a whole text. In their patterns at most `depth` - 1 brackets open inside one another.
#[tactic(auto, unfolding(crate::specs::DeclarationGrammar::declarations_from))]
pub fn declarations(alloc: Global, cursor: &mut Cursor<'_>, depth: u32) -> Result<Vec<Decl>, Fault>
    ensures { ReadsAll (spec.declarations_at depth cursor.old) result cursor.new }
{
    let mut found = Vec::new(alloc);
    let mut section = None;
    for _turn in 0..cursor.left() {
        if cursor.sees(Class::End) {
            return Ok(found);
        }
        let decl = declaration(alloc, cursor, depth, section)?;
        section = section_after(section, &decl);
        found.push(decl)?;
    }
    Ok(found)
}
