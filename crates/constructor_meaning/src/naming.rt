// The conditions on the names and numbers of a constructor's declaration.
ghost use Rattle.std.specs.Prelude.{◌≡◌, ◌∷◌, [], true, map, IfOk, None, Some};
ghost use Rattle.token_bits.specs.Tokens.{AreTokens};
ghost use Rattle.tree_meaning.specs.declared.parts.Site.TheVariants as site;
ghost use Rattle.tree_meaning.specs.NameTables.{table_names};
ghost use Rattle.tree_meaning.specs.Parts.{parts as parts_in, labels as labels_in, are_known as are_known_in, numbers_fit as numbers_fit_in, generates_nothing};
ghost use Rattle.tree_meaning.specs.Patterns.{has_all_in_range};
ghost use Rattle.tree_meaning.specs.Scopes.{declared_in};
ghost use Rattle.type_tables.specs.Tables.{IsTableOf};
ghost use Rattle.operand_meaning.specs.Operands.{operands_are_known, operand_kinds as kinds_of, equations_are_known};
ghost use Rattle.constructor_scopes.specs.Names.{made_names as names_of};
ghost use Rattle.constructor_scopes.specs.Makings.{makings as makings_in};
ghost use Rattle.constructor_scopes.specs.Views.{made};
ghost use Rattle.constructor_meaning.specs.Conditions as of;
ghost use Rattle.constructor_meaning.specs.Constructing.{constructing};
ghost use Rattle.constructor_meaning.specs.Sound.{IsSoundScope};
ghost use Rattle.constructor_meaning.specs.Read.{IsKnownOutside};
ghost use Rattle.constructor_meaning.specs.Unmet.{first_unmet};

use crate::results::result_is_open;
use crate::tree::ConstructorTree;
use constructor_scopes::{Makings, have_local_names, have_new_names, made_names};
use operand_meaning::{are_equations_known, operand_kinds};
use sled_base::NoMemory;
use sled_model::{KindList, Spec};
use sled_parser::tree::PatternTree;
use std::alloc::Global;
use token_bits::Tokens;
use tree_meaning::{NameTable, Scope, Site, are_known, generate_nothing, numbers_fit};
use type_tables::TypeTable;

/// Condition 1: whether the names are declared once.
pub fn names_are_declared_once(
    alloc: Global,
    spec: &Spec,
    types: &TypeTable,
    scope: &Scope<'_>,
    tree: &ConstructorTree<'_>,
    makings: &Makings<'_>,
    parts: &[&PatternTree],
) -> Result<bool, NoMemory>
    requires sound { IsSoundScope spec.now (declared_in scope.now) }
    requires types { IsTableOf spec.now types.now }
    requires makings { made makings.now ≡ makings_in (declared_in scope.now) tree.now.opcode.now }
    requires parts { map (λ x. x.now) parts.now ≡ parts_in tree.now.body.now }
    ensures { IfOk result (λ once. once ≡ of.names_are_declared_once spec.now (declared_in scope.now) (constructing tree.now)) }
{
    let names = made_names(alloc, makings)?;
    let new = have_new_names(alloc, spec, names.as_slice())?;
    let local = have_local_names(alloc, scope, tree.operands.as_slice(), tree.body, parts)?;
    let open = result_is_open(spec, types, scope, tree.operands.as_slice(), tree.result);
    Ok(new && local && open)
}

/// The kinds of the operands, where each is something and the names in the equations are known.
pub fn known_kinds(
    alloc: Global,
    scope: &Scope<'_>,
    tree: &ConstructorTree<'_>,
    labels: &NameTable<'_>,
) -> Result<Option<KindList>, NoMemory>
    requires labels { table_names labels.now ≡ labels_in tree.now.body.now }
    ensures { IfOk result (λ kinds. IsKnownOutside (declared_in scope.now) (constructing tree.now) kinds) }
{
    let kinds = operand_kinds(
        alloc,
        scope,
        tree.operands.as_slice(),
        tree.equations.as_slice(),
    )?;
    let known = are_equations_known(
        alloc,
        scope,
        labels,
        tree.operands.as_slice(),
        tree.equations.as_slice(),
    )?;
    if known { Ok(kinds) } else { Ok(None) }
}

/// The first of the conditions 2, 4 and 5 that the body does not meet, in the scope of its operands.
pub fn unmet_parts(
    tokens: &Tokens,
    scope: &Scope<'_>,
    body: &PatternTree,
    parts: &[&PatternTree],
) -> Option<u8>
    requires tokens { AreTokens tokens.now }
    requires parts { map (λ x. x.now) parts.now ≡ parts_in body.now }
    requires numbers { has_all_in_range body.now ≡ true }
    ensures { result ≡ first_unmet ((2, are_known_in site.Body (declared_in scope.now) body.now) ∷ (4, numbers_fit_in tokens.now (declared_in scope.now) body.now) ∷ (5, generates_nothing body.now) ∷ []) }
{
    let known = all_known(scope, body, parts);
    let fit = all_fit(tokens, scope, body, parts);
    let plain = all_plain(body, parts);
    first_unmet_part(known, fit, plain)
}

fn first_unmet_part(known: bool, fit: bool, plain: bool) -> Option<u8>
    ensures { result ≡ first_unmet ((2, known) ∷ (4, fit) ∷ (5, plain) ∷ []) }
{
    if !known {
        Some(2)
    } else if !fit {
        Some(4)
    } else if !plain {
        Some(5)
    } else {
        None
    }
}

fn all_known(scope: &Scope<'_>, body: &PatternTree, parts: &[&PatternTree]) -> bool
    requires { map (λ x. x.now) parts.now ≡ parts_in body.now }
    ensures { result ≡ are_known_in site.Body (declared_in scope.now) body.now }
{
    are_known(Site::Body, scope, parts)
}

fn all_fit(tokens: &Tokens, scope: &Scope<'_>, body: &PatternTree, parts: &[&PatternTree]) -> bool
    requires tokens { AreTokens tokens.now }
    requires parts { map (λ x. x.now) parts.now ≡ parts_in body.now }
    requires numbers { has_all_in_range body.now ≡ true }
    ensures { result ≡ numbers_fit_in tokens.now (declared_in scope.now) body.now }
{
    numbers_fit(tokens, scope, parts)
}

fn all_plain(body: &PatternTree, parts: &[&PatternTree]) -> bool
    requires { map (λ x. x.now) parts.now ≡ parts_in body.now }
    ensures { result ≡ generates_nothing body.now }
{
    generate_nothing(parts)
}
