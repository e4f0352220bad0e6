// A named pattern, or a group of them.
ghost use Rattle.std.specs.Prelude.{◌≡◌, ◌&&◌, ◌==◌, ◌++◌, ◌∷◌, [], Some, None, true, false, not, map, length, List, All, IfOk, OnOk, IfSome};
ghost use Rattle.std.specs.List.{list_all, list_any};
ghost use Rattle.constructor_meaning.specs.Unmet.{first_unmet};
ghost use Rattle.sled_elab.specs.Conditions as of;
ghost use Rattle.sled_elab.specs.Declarations as make;
ghost use Rattle.sled_elab.specs.Descriptions.{described_in, IsSound};
ghost use Rattle.sled_model.specs.Leaves.{AllLeaves, NamesNoConstructor};
ghost use Rattle.sled_model.specs.Shapes as shape;
ghost use Rattle.tree_meaning.specs.Bindings.{are_none};
ghost use Rattle.tree_meaning.specs.Names.{is_among};
ghost use Rattle.token_bits.specs.Tokens.{AreTokens};
ghost use Rattle.tree_meaning.specs.Parts.{parts as parts_in, are_known as are_known_in, numbers_fit as numbers_fit_in};
ghost use Rattle.tree_meaning.specs.Patterns.{has_all_in_range, has_part_in_range, choices_among, patterns_of as patterns_in};
ghost use Rattle.tree_meaning.specs.Scopes.{declared_in};
ghost use Rattle.tree_meaning.specs.Sound.{IsSoundMeaning};

use crate::description::Description;
use crate::first::first_of;
use crate::form::spec_form;
use sled_base::NoMemory;
use sled_model::{Pattern, PatternList, Spec};
use sled_parser::tree::{ItemTree, ItemTreeList, PatternTree};
use std::alloc::Global;
use token_bits::Tokens;
use tree_meaning::{
    Meaning, NameTable, Scope, Site, are_declared_once, are_known, bindings_of, choice_count,
    generate_nothing, labels_are_new, numbers_fit, parts_of, patterns_of,
};

/// Adds the pattern or the group, or answers what the definition lacks.
pub fn declare_definition<'a>(
    alloc: Global,
    description: &mut Description<'a>,
    name: &'a [u8],
    items: &'a Option<ItemTreeList>,
    tree: &'a PatternTree,
) -> Result<Option<u8>, NoMemory>
    requires sound { IsSound (described_in description.old) }
    requires numbers { has_all_in_range tree.now ≡ true }
    ensures lack { IfOk result (λ lack. lack ≡ first_unmet (of.definition_conditions (described_in description.old) name.now items.now tree.now)) }
    ensures made { IfOk result (λ lack. lack ≡ None → described_in description.new ≡ make.with_definition (described_in description.old) name.now items.now tree.now) }
    ensures sound { IfOk result (λ lack. lack ≡ None → IsSound (described_in description.new)) }
{
    if let Some(condition) = unmet_naming(alloc, description, name, items, tree)? {
        return Ok(Some(condition));
    }
    let patterns = patterns_of(alloc, &description.scope, &NameTable::new(alloc), tree)?;
    if let Some(condition) = unmet_forming(alloc, description, tree, patterns.as_slice())? {
        return Ok(Some(condition));
    }
    add_patterns(alloc, &mut description.scope, name, items, patterns)?;
    Ok(None)
}

// The first condition on names and numbers that is unmet.
fn unmet_naming(
    alloc: Global,
    description: &Description<'_>,
    name: &[u8],
    items: &Option<ItemTreeList>,
    tree: &PatternTree,
) -> Result<Option<u8>, NoMemory>
    requires sound { IsSound (described_in description.now) }
    requires numbers { has_all_in_range tree.now ≡ true }
    ensures { IfOk result (λ unmet. unmet ≡ first_unmet (of.naming_conditions (described_in description.now) name.now items.now tree.now)) }
{
    let parts = parts_of(alloc, tree)?;
    let scope = &description.scope;
    let once = declares_once(alloc, scope, name, items)?;
    let labels = have_new_labels(scope, tree, parts.as_slice());
    let known = all_known(scope, tree, parts.as_slice());
    let fit = all_fit(&description.spec.tokens, scope, tree, parts.as_slice());
    let listed = choices_are_listed(items, scope, tree, parts.as_slice());
    Ok(first_unmet_naming(once, labels, known, fit, listed))
}

fn first_unmet_naming(once: bool, labels: bool, known: bool, fit: bool, listed: bool) -> Option<u8>
    ensures { result ≡ first_unmet ((1, once && labels) ∷ (2, known) ∷ (4, fit) ∷ (5, listed) ∷ []) }
{
    if !once || !labels {
        Some(1)
    } else if !known {
        Some(2)
    } else if !fit {
        Some(4)
    } else if !listed {
        Some(5)
    } else {
        None
    }
}

fn have_new_labels(scope: &Scope<'_>, tree: &PatternTree, parts: &[&PatternTree]) -> bool
    requires { map (λ x. x.now) parts.now ≡ parts_in tree.now }
    ensures { result ≡ make.labels_are_new (declared_in scope.now) tree.now }
{
    labels_are_new(scope, parts)
}

fn all_known(scope: &Scope<'_>, tree: &PatternTree, parts: &[&PatternTree]) -> bool
    requires { map (λ x. x.now) parts.now ≡ parts_in tree.now }
    ensures { result ≡ are_known_in Site.Definition (declared_in scope.now) tree.now }
{
    are_known(Site::Definition, scope, parts)
}

fn all_fit(tokens: &Tokens, scope: &Scope<'_>, tree: &PatternTree, parts: &[&PatternTree]) -> bool
    requires tokens { AreTokens tokens.now }
    requires parts { map (λ x. x.now) parts.now ≡ parts_in tree.now }
    requires numbers { has_all_in_range tree.now ≡ true }
    ensures { result ≡ numbers_fit_in tokens.now (declared_in scope.now) tree.now }
{
    numbers_fit(tokens, scope, parts)
}

fn declares_once(
    alloc: Global,
    scope: &Scope<'_>,
    name: &[u8],
    items: &Option<ItemTreeList>,
) -> Result<bool, NoMemory>
    ensures { IfOk result (λ once. once ≡ of.are_declared_once (declared_in scope.now) (make.definition_names name.now items.now)) }
{
    let names = definition_names(alloc, name, items)?;
    are_declared_once(alloc, &scope.names, names.as_slice())
}

fn definition_names<'a>(
    alloc: Global,
    name: &'a [u8],
    items: &'a Option<ItemTreeList>,
) -> Result<Vec<&'a [u8]>, NoMemory>
    ensures { IfOk result (λ names. map (λ x. x.now) names.items ≡ make.definition_names name.now items.now) }
{
    let mut names = Vec::new(alloc);
    names.push(name)?;
    if let Some(items) = items {
        push_item_names(&mut names, items.as_slice())?;
    }
    Ok(names)
}

fn push_item_names<'a>(names: &mut Vec<&'a [u8]>, items: &'a [ItemTree]) -> Result<(), NoMemory>
    ensures { OnOk result (map (λ x. x.now) names.new.items ≡ map (λ x. x.now) names.old.items ++ make.item_names items.now) }
{
    for item in items {
        push_item_name(names, item)?;
    }
    Ok(())
}

fn push_item_name<'a>(names: &mut Vec<&'a [u8]>, item: &'a ItemTree) -> Result<(), NoMemory>
    ensures { OnOk result (map (λ x. x.now) names.new.items ≡ map (λ x. x.now) names.old.items ++ make.item_name item.now) }
{
    if let ItemTree::Name(name) = item {
        names.push(name.as_slice())?;
    }
    Ok(())
}

// Whether a group's list has a place for each choice and a name in it, or a single pattern no choice.
fn choices_are_listed(
    items: &Option<ItemTreeList>,
    scope: &Scope<'_>,
    tree: &PatternTree,
    parts: &[&PatternTree],
) -> bool
    requires parts { map (λ x. x.now) parts.now ≡ parts_in tree.now }
    requires numbers { has_all_in_range tree.now ≡ true }
    ensures { result ≡ of.choices_are_listed (declared_in scope.now) items.now tree.now }
{
    match items {
        None => generate_nothing(parts),
        Some(items) => {
            let items = items.as_slice();
            has_name(items) && has_places(items, parts)
        }
    }
}

// Whether there is a place for each choice.
fn has_places(items: &[ItemTree], parts: &[&PatternTree]) -> bool
    requires { list_all has_part_in_range (map (λ x. x.now) parts.now) ≡ true }
    ensures { result ≡ (length items.now == choices_among (map (λ x. x.now) parts.now)) }
{
    items.len() as u64 == choice_count(parts)
}

fn has_name(items: &[ItemTree]) -> bool
    ensures { result ≡ not (are_none (make.item_names items.now)) }
{
    any_name(items)
}

fn any_name(items: &[ItemTree]) -> bool
    ensures { result ≡ list_any make.is_name items.now }
{
    items.iter().any(|item| is_name(item))
}

fn is_name(item: &ItemTree) -> bool
    ensures { result ≡ make.is_name item.now }
{
    matches!(item, ItemTree::Name(_))
}

/// What is asked of shapes, of several patterns together.
#[derive(Clone, Copy)]
struct Forms {
    agree: bool,
    closed: bool,
    alike: bool,
}

// The first condition that is unmet on what the patterns are made of, and on what the tree binds.
fn unmet_forming(
    alloc: Global,
    description: &Description<'_>,
    tree: &PatternTree,
    patterns: &[Pattern],
) -> Result<Option<u8>, NoMemory>
    requires { All (AllLeaves NamesNoConstructor) patterns.now }
    ensures { IfOk result (λ unmet. unmet ≡ first_unmet (of.forming_conditions (described_in description.now) tree.now patterns.now)) }
{
    let forms = forms_of(alloc, &description.spec, patterns)?;
    let bindings = bindings_of(alloc, &description.scope, tree)?;
    if !forms.agree {
        return Ok(Some(6));
    }
    if !forms.closed {
        return Ok(Some(7));
    }
    if !bindings.free || !forms.alike {
        return Ok(Some(8));
    }
    if bindings.names.len() != 0 {
        return Ok(Some(9));
    }
    Ok(None)
}

fn forms_of(alloc: Global, spec: &Spec, patterns: &[Pattern]) -> Result<Forms, NoMemory>
    requires { All (AllLeaves NamesNoConstructor) patterns.now }
    ensures agree { IfOk result (λ forms. forms.agree ≡ list_all (shape.conjunctions_agree (shape.spec_shapes spec.now)) patterns.now) }
    ensures closed { IfOk result (λ forms. forms.closed ≡ list_all (shape.chains_are_closed (shape.spec_shapes spec.now)) patterns.now) }
    ensures alike { IfOk result (λ forms. forms.alike ≡ list_all (shape.sides_have_one_shape (shape.spec_shapes spec.now)) patterns.now) }
{
    let mut forms = Forms {
        agree: true,
        closed: true,
        alike: true,
    };
    for pattern in patterns {
        let form = spec_form(alloc, spec, pattern)?;
        forms.agree = forms.agree && form.agree;
        forms.closed = forms.closed && form.closed;
        forms.alike = forms.alike && form.alike;
    }
    Ok(forms)
}

// Declares the pattern, or the group and its members.
fn add_patterns<'a>(
    alloc: Global,
    scope: &mut Scope<'a>,
    name: &'a [u8],
    items: &'a Option<ItemTreeList>,
    patterns: PatternList,
) -> Result<(), NoMemory>
    requires once { of.are_declared_once (declared_in scope.old) (make.definition_names name.now items.now) ≡ true }
    requires whole { IfSome items.now (λ listed. length listed ≡ length patterns) }
    ensures { OnOk result (declared_in scope.new ≡ make.with_patterns (declared_in scope.old) name.now items.now patterns) }
{
    match items {
        None => scope.declare(name, Meaning::Pattern(first_of(patterns))),
        Some(items) => add_group(alloc, scope, name, items.as_slice(), patterns.as_slice()),
    }
}

fn add_group<'a>(
    alloc: Global,
    scope: &mut Scope<'a>,
    name: &'a [u8],
    items: &'a [ItemTree],
    patterns: &[Pattern],
) -> Result<(), NoMemory>
    requires once { of.are_declared_once (declared_in scope.old) (make.definition_names name.now (Some items.now)) ≡ true }
    requires whole { length items.now ≡ length patterns.now }
    ensures { OnOk result (declared_in scope.new ≡ make.with_patterns (declared_in scope.old) name.now (Some items.now) patterns.now) }
{
    let members = members(alloc, items, patterns)?;
    let group = copies(alloc, members.as_slice())?;
    scope.declare(name, Meaning::Group(group))?;
    for member in members.as_slice() {
        add_member(alloc, scope, member.0, member.1)?;
    }
    Ok(())
}

fn add_member<'a>(
    alloc: Global,
    scope: &mut Scope<'a>,
    name: &'a [u8],
    pattern: &Pattern,
) -> Result<(), NoMemory>
    requires { is_among (declared_in scope.old).names name.now ≡ false }
    ensures { OnOk result (declared_in scope.new ≡ make.with_member (declared_in scope.old) (name.now, pattern.now)) }
{
    scope.declare(name, Meaning::Pattern(pattern.copy(alloc)?))
}

// The members of a group, each with its name.
fn members<'a, 'p>(
    alloc: Global,
    items: &'a [ItemTree],
    patterns: &'p [Pattern],
) -> Result<Vec<(&'a [u8], &'p Pattern)>, NoMemory>
    requires { length items.now ≡ length patterns.now }
    ensures { IfOk result (λ found. map (λ m. (m.0.now, m.1.now)) found.items ≡ make.members items.now patterns.now) }
{
    let mut found = Vec::new(alloc);
    for (i, item) in items.iter().enumerate() {
        push_member(&mut found, item, &patterns[i])?;
    }
    Ok(found)
}

fn push_member<'a, 'p>(
    found: &mut Vec<(&'a [u8], &'p Pattern)>,
    item: &'a ItemTree,
    pattern: &'p Pattern,
) -> Result<(), NoMemory>
    ensures { OnOk result (map (λ m. (m.0.now, m.1.now)) found.new.items ≡ map (λ m. (m.0.now, m.1.now)) found.old.items ++ make.member item.now pattern.now) }
{
    if let ItemTree::Name(name) = item {
        found.push((name.as_slice(), pattern))?;
    }
    Ok(())
}

fn copies(alloc: Global, members: &[(&[u8], &Pattern)]) -> Result<PatternList, NoMemory>
    ensures { IfOk result (λ ps. ps ≡ map (λ m. m.1.now) members.now) }
{
    let mut copied = PatternList::new(alloc);
    for member in members {
        copied.push(member.1.copy(alloc)?)?;
    }
    Ok(copied)
}
