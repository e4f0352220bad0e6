// The constructors of a declaration.
ghost use Rattle.std.specs.Prelude.{◌≡◌, true, None, ℕ, Option, IfOk, IfErr, OnOk};
ghost use Rattle.constructor_meaning.specs.Conditions.{conditions};
ghost use Rattle.constructor_meaning.specs.Constructing.{constructing};
ghost use Rattle.constructor_meaning.specs.Draft.{IsDraftOf};
ghost use Rattle.constructor_meaning.specs.Read.{IsUnmetAt};
ghost use Rattle.constructor_meaning.specs.Unmet.{first_unmet};
ghost use Rattle.operand_meaning.specs.Terms.{have_equations_in_range};
ghost use Rattle.sled_elab.specs.Conditions.{IsUnmetOf, IsUnmetMade, unmet_made as unmet_made_of};
ghost use Rattle.sled_elab.specs.Declarations.{with_built, Described};
ghost use Rattle.sled_elab.specs.Descriptions.{described_in, HasPlainNames, IsSound};
ghost use Rattle.tree_meaning.specs.Patterns.{has_all_in_range};
ghost use Rattle.type_tables.specs.Tables.{IsTableOf};

use crate::description::Description;
use constructor_building::{add_constructors, constructors_of};
use constructor_meaning::{ConstructorTree, Draft, ReadFault, draft_of, unmet_measures};
use constructor_plans::unmet_plans;
use sled_base::NoMemory;
use std::alloc::Global;
use type_tables::TypeTable;

/// Adds the constructors that the declaration makes, and their type where its name is new, or answers the first condition that is not met.
/// After a condition that is not met nothing is said of the description, nor of its local names.
pub fn declare_constructor<'a>(
    alloc: Global,
    description: &mut Description<'a>,
    types: &mut TypeTable,
    tree: &ConstructorTree<'a>,
) -> Result<Option<u8>, NoMemory>
    requires sound { IsSound (described_in description.old) }
    requires plain { HasPlainNames (described_in description.old).declared }
    requires types { IsTableOf description.old.spec types.old }
    requires numbers { has_all_in_range tree.now.body.now ≡ true }
    requires equations { have_equations_in_range tree.now.equations.now ≡ true }
    ensures unmet { IfOk result (IsUnmetOf (described_in description.old) (constructing tree.now)) }
    ensures made { IfOk result (λ unmet. unmet ≡ None → described_in description.new ≡ with_built (described_in description.old) (constructing tree.now)) }
    ensures sound { IfOk result (λ unmet. unmet ≡ None → IsSound (described_in description.new)) }
    ensures types { IfOk result (λ unmet. unmet ≡ None → IsTableOf description.new.spec types.new) }
{
    let draft = match drafted(alloc, description, types, tree) {
        Ok(draft) => draft,
        Err(ReadFault::Unmet(condition)) => return Ok(Some(condition)),
        Err(ReadFault::NoMemory) => return Err(NoMemory),
    };
    if let Some(condition) = unmet_made(alloc, description, tree, &draft)? {
        return Ok(Some(condition));
    }
    let (spec, scope) = (&mut description.spec, &mut description.scope);
    add_constructors(alloc, spec, types, scope, tree, draft)?;
    Ok(None)
}

// What is read of a declaration that meets each condition which is asked before its equations are solved.
fn drafted<'a>(
    alloc: Global,
    description: &mut Description<'a>,
    types: &TypeTable,
    tree: &ConstructorTree<'a>,
) -> Result<Draft<'a>, ReadFault>
    requires sound { IsSound (described_in description.old) }
    requires types { IsTableOf description.old.spec types.now }
    requires numbers { has_all_in_range tree.now.body.now ≡ true }
    requires equations { have_equations_in_range tree.now.equations.now ≡ true }
    ensures draft { IfOk result (IsDraftOf description.old.spec (described_in description.old).declared (constructing tree.now)) }
    ensures met { IfOk result (λ _. first_unmet (conditions description.old.spec (described_in description.old).declared (constructing tree.now)) ≡ None) }
    ensures unmet { IfErr result (λ fault. IsUnmetAt fault (first_unmet (conditions description.old.spec (described_in description.old).declared (constructing tree.now)))) }
    ensures kept { OnOk result (described_in description.new ≡ described_in description.old) }
{
    draft_of(
        alloc,
        &description.spec,
        types,
        &mut description.scope,
        tree,
    )
}

// The first condition that is unmet of those that are asked of the constructors which are made.
fn unmet_made(
    alloc: Global,
    description: &Description<'_>,
    tree: &ConstructorTree<'_>,
    draft: &Draft<'_>,
) -> Result<Option<u8>, NoMemory>
    requires sound { IsSound (described_in description.now) }
    requires plain { HasPlainNames (described_in description.now).declared }
    requires draft { IsDraftOf description.now.spec (described_in description.now).declared (constructing tree.now) draft.now }
    requires met { first_unmet (conditions description.now.spec (described_in description.now).declared (constructing tree.now)) ≡ None }
    requires equations { have_equations_in_range tree.now.equations.now ≡ true }
    ensures { IfOk result (IsUnmetMade (described_in description.now) (constructing tree.now)) }
{
    let (spec, scope) = (&description.spec, &description.scope);
    let constructors = constructors_of(alloc, spec, scope, tree, draft)?;
    let plans = unmet_plans(alloc, spec, constructors.as_slice())?;
    let unmet = or_unmet_measures(description, tree, draft, plans);
    Ok(unmet)
}

// What the plans do not meet, or else the first condition on lengths, weights and sizes that is unmet.
fn or_unmet_measures(
    description: &Description<'_>,
    tree: &ConstructorTree<'_>,
    draft: &Draft<'_>,
    plans: Option<u8>,
) -> Option<u8>
    requires { IsDraftOf description.now.spec (described_in description.now).declared (constructing tree.now) draft.now }
    ensures { result ≡ unmet_made_of (described_in description.now) (constructing tree.now) plans }
{
    match plans {
        Some(condition) => Some(condition),
        None => unmet_measures(
            &description.spec,
            tree.result.is_some(),
            &draft.reading,
            draft.measures.as_slice(),
        ),
    }
}
