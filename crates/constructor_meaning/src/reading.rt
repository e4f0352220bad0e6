// Reads the declaration of a constructor.
ghost use Rattle.std.specs.Prelude.{◌≡◌, ◌∷◌, ◌<◌, ◌^◌, [], true, false, map, length, IfOk, IfErr, OnOk, None, Some};
ghost use Rattle.token_bits.specs.Tokens.{AreTokens};
ghost use Rattle.tree_meaning.specs.declared.parts.Site.TheVariants as site;
ghost use Rattle.tree_meaning.specs.Names.{are_distinct, is_among};
ghost use Rattle.tree_meaning.specs.NameTables.{table_names};
ghost use Rattle.tree_meaning.specs.Parts.{parts as parts_in, labels as labels_in, are_known as are_known_in, numbers_fit as numbers_fit_in, generates_nothing};
ghost use Rattle.tree_meaning.specs.Patterns.{has_all_in_range};
ghost use Rattle.tree_meaning.specs.Scopes.{declared_in};
ghost use Rattle.type_tables.specs.Tables.{IsTableOf};
ghost use Rattle.operand_meaning.specs.Operands.{operand_names};
ghost use Rattle.constructor_scopes.specs.Makings.{makings as makings_in};
ghost use Rattle.constructor_scopes.specs.Views.{made, IsOfGroup};
ghost use Rattle.constructor_meaning.specs.Conditions as of;
ghost use Rattle.constructor_meaning.specs.Constructing.{constructing};
ghost use Rattle.constructor_meaning.specs.Read.{IsBodyOf, IsReadingOf, IsUnmetAt};
ghost use Rattle.constructor_meaning.specs.Sound.{IsSoundScope};
ghost use Rattle.constructor_meaning.specs.Unmet.{first_unmet};

use crate::fault::ReadFault;
use crate::labels::label_table;
use crate::naming::{known_kinds, names_are_declared_once, unmet_parts};
use crate::tree::ConstructorTree;
use constructor_scopes::{Makings, bodies_of, enter_operands, makings_of};
use sled_model::{KindList, PatternList, Spec};
use sled_parser::tree::PatternTree;
use std::alloc::Global;
use token_bits::Tokens;
use tree_meaning::{Bindings, NameTable, Scope, bindings_of, parts_of};
use type_tables::TypeTable;

/// What is read of the body of a constructor.
#[derive(Drop)]
pub struct BodyReading<'a> {
    /// What it binds.
    pub bindings: Bindings<'a>,
    /// The body of each constructor that the declaration makes, in order.
    pub bodies: PatternList,
}

/// What is read of the declaration of a constructor.
#[derive(Drop)]
pub struct Reading<'a> {
    /// The constructors that it makes.
    pub makings: Makings<'a>,
    /// The labels of its body, in order.
    pub labels: NameTable<'a>,
    /// The kinds of its operands.
    pub kinds: KindList,
    pub body: BodyReading<'a>,
}

/// Reads a declaration that meets the conditions on names and numbers, or names the first that it does not meet. The scope is as before
/// after an answer that is no fault.
pub fn read<'a>(
    alloc: Global,
    spec: &Spec,
    types: &TypeTable,
    scope: &mut Scope<'a>,
    tree: &ConstructorTree<'a>,
) -> Result<Reading<'a>, ReadFault>
    requires sound { IsSoundScope spec.now (declared_in scope.old) }
    requires types { IsTableOf spec.now types.now }
    requires numbers { has_all_in_range tree.now.body.now ≡ true }
    ensures read { IfOk result (IsReadingOf (declared_in scope.old) (constructing tree.now)) }
    ensures met { IfOk result (λ _. first_unmet (of.naming_conditions spec.now (declared_in scope.old) (constructing tree.now)) ≡ None) }
    ensures unmet { IfErr result (λ fault. IsUnmetAt fault (first_unmet (of.naming_conditions spec.now (declared_in scope.old) (constructing tree.now)))) }
    ensures kept { OnOk result (declared_in scope.new ≡ declared_in scope.old) }
{
    let makings = makings_of(alloc, scope, tree.opcode.as_slice())?;
    let parts = parts_of(alloc, tree.body)?;
    if !names_are_declared_once(alloc, spec, types, scope, tree, &makings, parts.as_slice())? {
        return Err(ReadFault::Unmet(1));
    }
    let labels = label_table(alloc, tree.body, parts.as_slice())?;
    let Some(kinds) = known_kinds(alloc, scope, tree, &labels)? else {
        return Err(ReadFault::Unmet(2));
    };
    let body = read_body(
        alloc,
        spec,
        scope,
        tree,
        &makings,
        &labels,
        parts.as_slice(),
    )?;
    Ok(Reading {
        makings,
        labels,
        kinds,
        body,
    })
}

// Reads the body in the scope of its operands.
fn read_body<'a>(
    alloc: Global,
    spec: &Spec,
    scope: &mut Scope<'a>,
    tree: &ConstructorTree<'a>,
    makings: &Makings<'a>,
    labels: &NameTable<'_>,
    parts: &[&PatternTree],
) -> Result<BodyReading<'a>, ReadFault>
    requires sound { IsSoundScope spec.now (declared_in scope.old) }
    requires makings { made makings.now ≡ makings_in (declared_in scope.old) tree.now.opcode.now }
    requires labels { table_names labels.now ≡ labels_in tree.now.body.now }
    requires few { length (table_names labels.now) < 2 ^ 32 }
    requires parts { map (λ x. x.now) parts.now ≡ parts_in tree.now.body.now }
    requires numbers { has_all_in_range tree.now.body.now ≡ true }
    requires distinct { are_distinct (operand_names tree.now.operands.now) ≡ true }
    requires fresh { IsOfGroup makings.now → is_among (of.body_scope (declared_in scope.old) (constructing tree.now)).local_names tree.now.opcode.now ≡ false }
    ensures read { IfOk result (IsBodyOf (declared_in scope.old) (constructing tree.now)) }
    ensures met { IfOk result (λ _. first_unmet (of.part_conditions spec.now (declared_in scope.old) (constructing tree.now)) ≡ None) }
    ensures unmet { IfErr result (λ fault. IsUnmetAt fault (first_unmet (of.part_conditions spec.now (declared_in scope.old) (constructing tree.now)))) }
    ensures kept { OnOk result (declared_in scope.new ≡ declared_in scope.old) }
{
    enter_operands(alloc, scope, tree.operands.as_slice())?;
    if let Some(condition) = unmet_parts(&spec.tokens, scope, tree.body, parts) {
        return Err(ReadFault::Unmet(condition));
    }
    let bindings = bindings_of(alloc, scope, tree.body)?;
    let bodies = bodies_of(
        alloc,
        scope,
        tree.opcode.as_slice(),
        makings,
        labels,
        tree.body,
    )?;
    scope.leave();
    Ok(BodyReading { bindings, bodies })
}
