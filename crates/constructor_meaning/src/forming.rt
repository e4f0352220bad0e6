// The conditions on what the bodies of a declaration are made of.
ghost use Rattle.std.specs.Prelude.{◌≡◌, ◌&&◌, ◌∷◌, [], All, nat_le, is_some, IfOk};
ghost use Rattle.std.specs.List.{list_all};
ghost use Rattle.sled_model.specs.Leaves.{AllLeaves, IsNoApplication};
ghost use Rattle.sled_model.specs.Shapes.{are_closed, lengths_within as lengths_within_of};
ghost use Rattle.sled_model.specs.Specs.{IsSpec};
ghost use Rattle.tree_meaning.specs.Scopes.{Declared};
ghost use Rattle.type_tables.specs.Tables.{IsTableOf};
ghost use Rattle.constructor_meaning.specs.Conditions as of;
ghost use Rattle.constructor_meaning.specs.Constructing.{Constructing};
ghost use Rattle.constructor_meaning.specs.Measured.{EachMeasured};
ghost use Rattle.constructor_meaning.specs.Read.{IsReadingOf};
ghost use Rattle.constructor_meaning.specs.Unmet.{first_unmet};

use crate::reading::Reading;
use sled_base::NoMemory;
use sled_model::{OperandKind, Pattern, Spec};
use std::alloc::Global;
use token_bits::Tokens;
use type_tables::{Measures, TypeTable};

/// What each of the bodies comes to, in order.
pub fn measure_each(
    alloc: Global,
    spec: &Spec,
    types: &TypeTable,
    kinds: &[OperandKind],
    bodies: &[Pattern],
) -> Result<Vec<Measures>, NoMemory>
    requires spec { IsSpec spec.now }
    requires types { IsTableOf spec.now types.now }
    requires plain { All (AllLeaves IsNoApplication) bodies.now }
    ensures { IfOk result (λ measures. EachMeasured spec.now kinds.now bodies.now measures.items) }
{
    let mut measures = Vec::new(alloc);
    for body in bodies {
        measures.push(types.measure(alloc, &spec.tokens, kinds, body)?)?;
    }
    Ok(measures)
}

fn all_agree(measures: &[Measures]) -> bool
    ensures { result ≡ list_all (λ m. m.form.agree) measures.now }
{
    measures.iter().all(|measures| measures.form.agree)
}

fn all_closed(measures: &[Measures]) -> bool
    ensures { result ≡ list_all (λ m. m.form.closed && are_closed m.form.shapes) measures.now }
{
    measures.iter().all(|measures| is_closed(measures))
}

fn is_closed(measures: &Measures) -> bool
    ensures { result ≡ (measures.now.form.closed && are_closed measures.now.form.shapes) }
{
    measures.form.closed && measures.form.is_closed()
}

fn all_alike(measures: &[Measures]) -> bool
    ensures { result ≡ list_all (λ m. m.form.alike) measures.now }
{
    measures.iter().all(|measures| measures.form.alike)
}

fn have_like_sides(free: bool, measures: &[Measures]) -> bool
    ensures { result ≡ (free && list_all (λ m. m.form.alike) measures.now) }
{
    free && all_alike(measures)
}

/// The first of the conditions 6 to 9 that the declaration does not meet.
pub fn unmet_forming(spec: &Spec, reading: &Reading<'_>, measures: &[Measures]) -> Option<u8>
    requires { EachMeasured spec.now reading.now.kinds reading.now.body.bodies measures.now }
    ensures { (declared : Declared) (c : Constructing) → IsReadingOf declared c reading.now → result ≡ first_unmet (of.forming_conditions (of.shape_context spec.now declared c) declared c (of.bodies declared c)) }
{
    let agree = all_agree(measures);
    let closed = all_closed(measures);
    let alike = have_like_sides(reading.body.bindings.free, measures);
    first_unmet_form(agree, closed, alike, reading.body.bindings.once)
}

fn first_unmet_form(agree: bool, closed: bool, alike: bool, once: bool) -> Option<u8>
    ensures { result ≡ first_unmet ((6, agree) ∷ (7, closed) ∷ (8, alike) ∷ (9, once) ∷ []) }
{
    if !agree {
        Some(6)
    } else if !closed {
        Some(7)
    } else if !alike {
        Some(8)
    } else if !once {
        Some(9)
    } else {
        None
    }
}

fn all_within(tokens: &Tokens, least: usize, measures: &[Measures]) -> bool
    ensures { result ≡ list_all (λ m. lengths_within_of least 32 tokens.now m.form.shapes) measures.now }
{
    measures
        .iter()
        .all(|measures| measures.form.lengths_within(tokens, least, 32))
}

fn all_small(measures: &[Measures]) -> bool
    ensures { result ≡ list_all (λ m. nat_le m.weight 4096 && nat_le m.size 256) measures.now }
{
    measures.iter().all(|measures| is_small(measures))
}

fn is_small(measures: &Measures) -> bool
    ensures { result ≡ (nat_le measures.now.weight 4096 && nat_le measures.now.size 256) }
{
    measures.weight <= 4096 && measures.size <= 256
}

/// The first of the conditions 14 and 15 that the declaration does not meet.
pub fn unmet_measures(
    spec: &Spec,
    typed: bool,
    reading: &Reading<'_>,
    measures: &[Measures],
) -> Option<u8>
    requires { EachMeasured spec.now reading.now.kinds reading.now.body.bodies measures.now }
    ensures { (declared : Declared) (c : Constructing) → IsReadingOf declared c reading.now → typed ≡ is_some c.result → result ≡ first_unmet (of.measure_conditions spec.now declared c (of.bodies declared c)) }
{
    let within = all_within(&spec.tokens, least_length(typed), measures);
    let small = all_small(measures);
    first_unmet_measure(within, small)
}

fn first_unmet_measure(within: bool, small: bool) -> Option<u8>
    ensures { result ≡ first_unmet ((14, within) ∷ (15, small) ∷ []) }
{
    if !within {
        Some(14)
    } else if !small {
        Some(15)
    } else {
        None
    }
}

// A constructor of a type may have no bytes.
fn least_length(typed: bool) -> usize
    ensures { result ≡ of.least_length typed }
{
    if typed { 0 } else { 1 }
}
