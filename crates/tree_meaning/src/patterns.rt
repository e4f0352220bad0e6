// The patterns that a tree stands for: one for each choice of a number in each of its generating expressions.
ghost use Rattle.std.specs.Prelude.{◌≡◌, ◌<◌, ◌≤◌, ◌-◌, ◌^◌, ◌++◌, ◌∷◌, [], length, map, true, IfOk, OnOk};
ghost use Rattle.std.specs.List.{list_all, range_with_len};
ghost use Rattle.sled_lexer.specs.Spelled as spelled;
ghost use Rattle.sled_model.specs.declared.pattern.Pattern.TheVariants as pattern;
ghost use Rattle.tree_meaning.specs.NameTables.{table_names};
ghost use Rattle.tree_meaning.specs.Scopes.{declared_in};
ghost use Rattle.tree_meaning.specs.Values.{has_numbers_in_range, is_in_range, value_numbers};
ghost use Rattle.tree_meaning.specs.Patterns as means;
ghost use Rattle.tree_meaning.specs.Patterns.{extended_by};

use crate::names::NameTable;
use crate::scope::{Meaning, Scope};
use sled_base::NoMemory;
use sled_lexer::number_value;
use sled_model::{Pattern, PatternList, Relation};
use sled_parser::tree::{PatternTree, RelationTree, Spelling, ValueTree};
use sqlite_items::Boxed;
use std::alloc::Global;
use token_bits::FieldId;

fn relation_of(relation: RelationTree) -> Relation
    ensures { result ≡ means.relation_of relation }
{
    match relation {
        RelationTree::Equal => Relation::Equal,
        RelationTree::Differs => Relation::Differs,
        RelationTree::Below => Relation::Below,
        RelationTree::AtMost => Relation::AtMost,
        RelationTree::Above => Relation::Above,
        RelationTree::AtLeast => Relation::AtLeast,
    }
}

// Equal patterns.
fn copied(alloc: Global, patterns: &[Pattern]) -> Result<PatternList, NoMemory>
    ensures { IfOk result (λ ps. ps ≡ patterns.now) }
{
    let mut copied = PatternList::new(alloc);
    for pattern in patterns {
        copied.push(pattern.copy(alloc)?)?;
    }
    Ok(copied)
}

fn meaning_pattern(alloc: Global, meaning: &Meaning) -> Result<Pattern, NoMemory>
    ensures { IfOk result (λ p. p ≡ means.meaning_pattern meaning.now) }
{
    match meaning {
        Meaning::Class(class) => Ok(Pattern::Token(*class)),
        Meaning::Field(field) => Ok(Pattern::Bind(*field)),
        Meaning::Pattern(pattern) => pattern.copy(alloc),
        Meaning::Group(members) => Ok(Pattern::Either(copied(alloc, members.as_slice())?)),
        Meaning::Type(_) => Ok(Pattern::Empty),
        Meaning::Operand(number) => Ok(Pattern::Operand(*number)),
    }
}

fn word_pattern(alloc: Global, scope: &Scope<'_>, word: &[u8]) -> Result<Pattern, NoMemory>
    ensures { IfOk result (λ p. p ≡ means.word_pattern (declared_in scope.now) word.now) }
{
    match scope.find(word) {
        Some(meaning) => meaning_pattern(alloc, meaning),
        None => Ok(Pattern::Empty),
    }
}

fn field_or_first(scope: &Scope<'_>, name: &[u8]) -> FieldId
    ensures { result ≡ means.field_or_first (declared_in scope.now) name.now }
{
    scope.field_named(name).unwrap_or(FieldId(0))
}

fn label_number(names: &NameTable<'_>, label: &[u8]) -> u32
    requires { length (table_names names.now) < 2 ^ 32 }
    ensures { result ≡ means.label_number (table_names names.now) label.now }
{
    match names.find(label) {
        Some(number) => number as u32,
        None => 0,
    }
}

// A relation to each number from the first to just before the end.
fn range_limits(
    alloc: Global,
    field: FieldId,
    relation: Relation,
    first: u64,
    end: u64,
) -> Result<Vec<Pattern>, NoMemory>
    requires { end ≤ 2 ^ 32 }
    ensures { IfOk result (λ ps. ps.items ≡ map (pattern.Limit field relation) (range_with_len first (end - first))) }
{
    let mut patterns = Vec::new(alloc);
    for value in first..end {
        patterns.push(Pattern::Limit {
            field,
            relation,
            value: value as u32,
        })?;
    }
    Ok(patterns)
}

// A relation to each of the numbers.
fn listed_limits(
    alloc: Global,
    field: FieldId,
    relation: Relation,
    numbers: &[Spelling],
) -> Result<Vec<Pattern>, NoMemory>
    requires { list_all is_in_range numbers.now ≡ true }
    ensures { IfOk result (λ ps. ps.items ≡ map (λ n. pattern.Limit field relation (spelled.number_value n)) numbers.now) }
{
    let mut patterns = Vec::new(alloc);
    for number in numbers {
        patterns.push(Pattern::Limit {
            field,
            relation,
            value: number_value(number.as_slice()),
        })?;
    }
    Ok(patterns)
}

fn limits(
    alloc: Global,
    field: FieldId,
    relation: Relation,
    value: &ValueTree,
) -> Result<Vec<Pattern>, NoMemory>
    requires { has_numbers_in_range value.now ≡ true }
    ensures { IfOk result (λ ps. ps.items ≡ map (pattern.Limit field relation) (value_numbers value.now)) }
{
    match value {
        ValueTree::One(number) => one(
            alloc,
            Pattern::Limit {
                field,
                relation,
                value: number_value(number.as_slice()),
            },
        ),
        ValueTree::Range { first, last } => range_limits(
            alloc,
            field,
            relation,
            u64::from(number_value(first.as_slice())),
            u64::from(number_value(last.as_slice())) + 1,
        ),
        ValueTree::Listed(numbers) => listed_limits(alloc, field, relation, numbers.as_slice()),
    }
}

// The pattern, alone.
fn one(alloc: Global, pattern: Pattern) -> Result<Vec<Pattern>, NoMemory>
    ensures { IfOk result (λ ps. ps.items ≡ pattern ∷ []) }
{
    let mut patterns = Vec::new(alloc);
    patterns.push(pattern)?;
    Ok(patterns)
}

fn all_labelled(alloc: Global, label: u32, patterns: Vec<Pattern>) -> Result<Vec<Pattern>, NoMemory>
    ensures { IfOk result (λ ps. ps.items ≡ map (pattern.Label label) patterns.items) }
{
    let mut made = Vec::new(alloc);
    for pattern in patterns {
        made.push(Pattern::Label(label, Boxed::new(alloc, pattern)?))?;
    }
    Ok(made)
}

fn all_loose(alloc: Global, patterns: Vec<Pattern>) -> Result<Vec<Pattern>, NoMemory>
    ensures { IfOk result (λ ps. ps.items ≡ map pattern.Loose patterns.items) }
{
    let mut made = Vec::new(alloc);
    for pattern in patterns {
        made.push(Pattern::Loose(Boxed::new(alloc, pattern)?))?;
    }
    Ok(made)
}

fn all_either(alloc: Global, chosen: Vec<PatternList>) -> Result<Vec<Pattern>, NoMemory>
    ensures { IfOk result (λ ps. ps.items ≡ map pattern.Either chosen.items) }
{
    Ok(chosen.into_iter().map(Pattern::Either).collect(alloc)?)
}

fn all_chain(alloc: Global, chosen: Vec<PatternList>) -> Result<Vec<Pattern>, NoMemory>
    ensures { IfOk result (λ ps. ps.items ≡ map pattern.Chain chosen.items) }
{
    Ok(chosen.into_iter().map(Pattern::Chain).collect(alloc)?)
}

fn all_both(alloc: Global, chosen: Vec<PatternList>) -> Result<Vec<Pattern>, NoMemory>
    ensures { IfOk result (λ ps. ps.items ≡ map pattern.Both chosen.items) }
{
    Ok(chosen.into_iter().map(Pattern::Both).collect(alloc)?)
}

// A copy of the list, and the pattern behind it.
fn with_copy(alloc: Global, list: &[Pattern], pattern: &Pattern) -> Result<PatternList, NoMemory>
    ensures { IfOk result (λ ps. ps ≡ list.now ++ pattern.now ∷ []) }
{
    let mut made = copied(alloc, list)?;
    made.push(pattern.copy(alloc)?)?;
    Ok(made)
}

// Appends the list with each of the patterns behind it.
fn push_extended(
    alloc: Global,
    made: &mut Vec<PatternList>,
    list: &[Pattern],
    patterns: &[Pattern],
) -> Result<(), NoMemory>
    ensures { OnOk result (made.new.items ≡ made.old.items ++ map (λ p. list.now ++ p ∷ []) patterns.now) }
{
    for pattern in patterns {
        made.push(with_copy(alloc, list, pattern)?)?;
    }
    Ok(())
}

// Each of the lists with each of the patterns behind it.
fn all_extended(
    alloc: Global,
    chosen: &[PatternList],
    patterns: &[Pattern],
) -> Result<Vec<PatternList>, NoMemory>
    ensures { IfOk result (λ made. made.items ≡ extended_by chosen.now patterns.now) }
{
    let mut made = Vec::new(alloc);
    for list in chosen {
        push_extended(alloc, &mut made, list.as_slice(), patterns)?;
    }
    Ok(made)
}

// The lists, each with the pattern pushed on it.
fn push_on_each(
    alloc: Global,
    chosen: Vec<PatternList>,
    pattern: &Pattern,
) -> Result<Vec<PatternList>, NoMemory>
    ensures { IfOk result (λ made. made.items ≡ map (λ c. c ++ pattern.now ∷ []) chosen.items) }
{
    let mut made = Vec::new(alloc);
    for mut list in chosen {
        list.push(pattern.copy(alloc)?)?;
        made.push(list)?;
    }
    Ok(made)
}

// Each of the lists with each of the patterns behind it. No list is copied where there is one pattern, and no pattern where there is
// one list.
fn extended(
    alloc: Global,
    mut chosen: Vec<PatternList>,
    mut patterns: Vec<Pattern>,
) -> Result<Vec<PatternList>, NoMemory>
    ensures { IfOk result (λ made. made.items ≡ extended_by chosen.items patterns.items) }
{
    if patterns.len() != 1 {
        return all_extended(alloc, &chosen, &patterns);
    }
    if chosen.len() != 1 {
        return push_on_each(alloc, chosen, &patterns[0]);
    }
    chosen[0].push(patterns.remove(0))?;
    Ok(chosen)
}

// Every list of one pattern of each member: the choice from the last varies fastest.
#[cycle(patterns)]
fn choices_of(
    alloc: Global,
    scope: &Scope<'_>,
    names: &NameTable<'_>,
    members: &[PatternTree],
) -> Result<Vec<PatternList>, NoMemory>
    requires names { length (table_names names.now) < 2 ^ 32 }
    requires numbers { list_all means.has_all_in_range members.now ≡ true }
    ensures { IfOk result (λ made. made.items ≡ means.choices (map (means.patterns_of (declared_in scope.now) (table_names names.now)) members.now)) }
{
    let mut chosen = Vec::new(alloc);
    chosen.push(PatternList::new(alloc))?;
    for member in members {
        chosen = extended(alloc, chosen, tree_patterns(alloc, scope, names, member)?)?;
    }
    Ok(chosen)
}

#[cycle(patterns)]
#[tactic(auto, using(crate::proofs::TreeLaws::patterns_laws))]
fn tree_patterns(
    alloc: Global,
    scope: &Scope<'_>,
    names: &NameTable<'_>,
    tree: &PatternTree,
) -> Result<Vec<Pattern>, NoMemory>
    requires names { length (table_names names.now) < 2 ^ 32 }
    requires numbers { means.has_all_in_range tree.now ≡ true }
    ensures { IfOk result (λ ps. ps.items ≡ means.patterns_of (declared_in scope.now) (table_names names.now) tree.now) }
{
    match tree {
        PatternTree::Either(members) => {
            let chosen = choices_of(alloc, scope, names, members.as_slice())?;
            all_either(alloc, chosen)
        }
        PatternTree::Chain(members) => {
            let chosen = choices_of(alloc, scope, names, members.as_slice())?;
            all_chain(alloc, chosen)
        }
        PatternTree::Both(members) => {
            let chosen = choices_of(alloc, scope, names, members.as_slice())?;
            all_both(alloc, chosen)
        }
        PatternTree::Labelled { label, pattern } => {
            let inner = tree_patterns(alloc, scope, names, pattern.get())?;
            all_labelled(alloc, label_number(names, label.as_slice()), inner)
        }
        PatternTree::Loose(inner) => {
            let inner = tree_patterns(alloc, scope, names, inner.get())?;
            all_loose(alloc, inner)
        }
        PatternTree::Group(inner) => tree_patterns(alloc, scope, names, inner.get()),
        PatternTree::Empty => one(alloc, Pattern::Empty),
        PatternTree::Word(word) => one(alloc, word_pattern(alloc, scope, word.as_slice())?),
        PatternTree::Limit {
            field,
            relation,
            value,
        } => {
            let field = field_or_first(scope, field.as_slice());
            limits(alloc, field, relation_of(*relation), value)
        }
        PatternTree::Apply { .. } => one(alloc, Pattern::Empty),
    }
}

/// The patterns that the tree stands for, in the order of the choices: the rightmost generating expression varies fastest. A name
/// that was not declared counts as `epsilon`, and so does an application.
pub fn patterns_of(
    alloc: Global,
    scope: &Scope<'_>,
    names: &NameTable<'_>,
    tree: &PatternTree,
) -> Result<PatternList, NoMemory>
    requires names { length (table_names names.now) < 2 ^ 32 }
    requires numbers { means.has_all_in_range tree.now ≡ true }
    ensures { IfOk result (λ ps. ps ≡ means.patterns_of (declared_in scope.now) (table_names names.now) tree.now) }
{
    Ok(PatternList::from_vec(tree_patterns(alloc, scope, names, tree)?))
}
