// What is asked of the parts of a pattern.
ghost use Rattle.std.specs.Prelude.{◌≡◌, true};
ghost use Rattle.token_bits.specs.Tokens.{AreTokens};
ghost use Rattle.std.specs.List.{list_all};
ghost use Rattle.tree_meaning.specs.Names.{are_new};
ghost use Rattle.tree_meaning.specs.NameTables.{table_names};
ghost use Rattle.tree_meaning.specs.Scopes.{declared_in};
ghost use Rattle.tree_meaning.specs.Parts as of;
ghost use Rattle.tree_meaning.specs.Patterns.{has_part_in_range};

use crate::parts::Site;
use crate::scope::{Meaning, Scope};
use crate::values::all_fit;
use sled_parser::tree::{PatternTree, ValueTree};
use token_bits::Tokens;

/// Whether no label among the parts is a declared name.
pub fn labels_are_new(scope: &Scope<'_>, parts: &[&PatternTree]) -> bool
    ensures { result ≡ list_all (λ x. are_new (table_names scope.now.names) (of.part_labels x.now)) parts.now }
{
    parts.iter().all(|part| label_is_new(scope, *part))
}

fn label_is_new(scope: &Scope<'_>, part: &PatternTree) -> bool
    ensures { result ≡ are_new (table_names scope.now.names) (of.part_labels part.now) }
{
    match part {
        PatternTree::Labelled { label, .. } => !scope.names.contains(label.as_slice()),
        _ => true,
    }
}

/// Whether each name in the parts was declared, as something that may stand there.
pub fn are_known(site: Site, scope: &Scope<'_>, parts: &[&PatternTree]) -> bool
    ensures { result ≡ list_all (λ x. of.is_known_part site (declared_in scope.now) x.now) parts.now }
{
    parts.iter().all(|part| is_known(site, scope, *part))
}

fn is_known(site: Site, scope: &Scope<'_>, part: &PatternTree) -> bool
    ensures { result ≡ of.is_known_part site (declared_in scope.now) part.now }
{
    match part {
        PatternTree::Word(word) => match scope.find(word.as_slice()) {
            Some(meaning) => may_stand(site, meaning),
            None => false,
        },
        PatternTree::Limit { field, .. } => scope.field_named(field.as_slice()).is_some(),
        PatternTree::Apply { .. } => false,
        _ => true,
    }
}

fn may_stand(site: Site, meaning: &Meaning) -> bool
    ensures { result ≡ of.may_stand site meaning.now }
{
    match (site, meaning) {
        (Site::Definition, Meaning::Field(_)) => false,
        (Site::Definition | Site::Arm, Meaning::Operand(_)) => false,
        (_, Meaning::Type(_)) => false,
        _ => true,
    }
}

/// Whether each number in the parts is a value of its field, where the field is known. Each Number is at most 4,294,967,295.
pub fn numbers_fit(tokens: &Tokens, scope: &Scope<'_>, parts: &[&PatternTree]) -> bool
    requires tokens { AreTokens tokens.now }
    requires numbers { list_all (λ x. has_part_in_range x.now) parts.now ≡ true }
    ensures { result ≡ list_all (λ x. of.part_fits tokens.now (declared_in scope.now) x.now) parts.now }
{
    for part in parts {
        if !part_fits(tokens, scope, *part) {
            return false;
        }
    }
    true
}

fn part_fits(tokens: &Tokens, scope: &Scope<'_>, part: &PatternTree) -> bool
    requires tokens { AreTokens tokens.now }
    requires numbers { has_part_in_range part.now ≡ true }
    ensures { result ≡ of.part_fits tokens.now (declared_in scope.now) part.now }
{
    let PatternTree::Limit { field, value, .. } = part else {
        return true;
    };
    match scope.field_named(field.as_slice()) {
        Some(field) => all_fit(tokens, field, value),
        None => true,
    }
}

/// Whether no generating expression stands in the parts.
pub fn generate_nothing(parts: &[&PatternTree]) -> bool
    ensures { result ≡ list_all (λ x. of.has_one_number x.now) parts.now }
{
    parts.iter().all(|part| has_one_number(*part))
}

fn has_one_number(part: &PatternTree) -> bool
    ensures { result ≡ of.has_one_number part.now }
{
    match part {
        PatternTree::Limit { value, .. } => matches!(value, ValueTree::One(_)),
        _ => true,
    }
}

/// Whether no application stands in the parts.
pub fn apply_nothing(parts: &[&PatternTree]) -> bool
    ensures { result ≡ list_all (λ x. of.is_no_application x.now) parts.now }
{
    parts.iter().all(|part| is_no_application(*part))
}

fn is_no_application(part: &PatternTree) -> bool
    ensures { result ≡ of.is_no_application part.now }
{
    !matches!(part, PatternTree::Apply { .. })
}
