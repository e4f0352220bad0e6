// Bare fields by their cells.
ghost use Rattle.std.specs.Prelude.{◌≡◌, ◌+◌, ◌^◌, ◌<◌, ◌≤◌, pos, map, length, true, All, IfOk};
ghost use Rattle.token_bits.specs.Tokens.{AreTokens};
ghost use Rattle.sled_model.specs.Equations.{half_of};
ghost use Rattle.sled_model.specs.SolvingOrder.{is_among, is_field_operand as is_field_operand_of};
ghost use Rattle.eq_solver.specs.Plans.{is_hidden_source};
ghost use Rattle.eq_solver.specs.Cells as spec;
ghost use Rattle.eq_solver.specs.Cells.{IsAtomAmong};

use crate::plan::{Source, SourceList, Value, ValueList};
use sled_base::NoMemory;
use sled_model::{Atom, Equation, EquationList, OperandKind, Term, TermList};
use sqlite_items::Items;
use std::alloc::Global;
use token_bits::{FieldId, Tokens};

/// The field's place among these, or how many they are where it is none of them.
fn cell_of(fields: &[u32], field: u32) -> usize
    ensures { result ≡ spec.cell_of fields.now field }
{
    for cell in 0..fields.len() {
        if fields[cell] == field {
            return cell;
        }
    }
    fields.len()
}

fn celled_field(fields: &[u32], field: FieldId) -> FieldId
    requires few { length fields.now ≤ 2 ^ 32 }
    requires among { is_among fields.now field.0 ≡ true }
    ensures { result ≡ spec.celled_field fields.now field }
{
    FieldId(cell_of(fields, field.0) as u32)
}

fn celled_atom(fields: &[u32], atom: Atom) -> Atom
    requires few { length fields.now ≤ 2 ^ 32 }
    requires among { IsAtomAmong fields.now atom }
    ensures { result ≡ spec.celled_atom fields.now atom }
{
    match atom {
        Atom::Field(field) => Atom::Field(celled_field(fields, field)),
        Atom::Signed(field) => Atom::Signed(celled_field(fields, field)),
        Atom::Name(_) | Atom::Slice { .. } | Atom::Label(_) => atom,
    }
}

fn celled_terms(alloc: Global, fields: &[u32], terms: &[Term]) -> Result<TermList, NoMemory>
    requires few { length fields.now ≤ 2 ^ 32 }
    requires among { All (λ t. IsAtomAmong fields.now t.atom) terms.now }
    ensures { IfOk result (λ found. found ≡ map (spec.celled_term fields.now) terms.now) }
{
    let mut found = Items::new(alloc);
    for term in terms {
        found.push(Term {
            coefficient: term.coefficient,
            atom: celled_atom(fields, term.atom),
        })?;
    }
    Ok(found)
}

fn celled(alloc: Global, fields: &[u32], equation: &Equation) -> Result<Equation, NoMemory>
    requires few { length fields.now ≤ 2 ^ 32 }
    requires among { All (λ t. IsAtomAmong fields.now t.atom) equation.now.terms }
    ensures { IfOk result (λ found. found ≡ spec.celled fields.now equation.now) }
{
    Ok(Equation {
        terms: celled_terms(alloc, fields, equation.terms.as_slice())?,
        rest: equation.rest,
    })
}

/// The equations, with each field named by its cell.
pub fn celled_equations(
    alloc: Global,
    fields: &[u32],
    equations: &[Equation],
) -> Result<EquationList, NoMemory>
    requires few { length fields.now ≤ 2 ^ 32 }
    requires among { All (λ e. All (λ t. IsAtomAmong fields.now t.atom) e.terms) equations.now }
    ensures { IfOk result (λ found. found ≡ map (spec.celled fields.now) equations.now) }
{
    let mut found = Items::new(alloc);
    for equation in equations {
        let next = celled(alloc, fields, equation)?;
        found.push(next)?;
    }
    Ok(found)
}

fn celled_value(alloc: Global, fields: &[u32], value: &Value) -> Result<Value, NoMemory>
    requires few { length fields.now ≤ 2 ^ 32 }
    requires among { All (λ t. IsAtomAmong fields.now t.atom) value.now.terms }
    ensures { IfOk result (λ found. found ≡ spec.celled_value fields.now value.now) }
{
    Ok(Value {
        target: value.target,
        terms: celled_terms(alloc, fields, value.terms.as_slice())?,
        rest: value.rest,
    })
}

/// The values, with each field named by its cell.
pub fn celled_values(alloc: Global, fields: &[u32], values: &[Value]) -> Result<ValueList, NoMemory>
    requires few { length fields.now ≤ 2 ^ 32 }
    requires among { All (λ g. All (λ t. IsAtomAmong fields.now t.atom) g.terms) values.now }
    ensures { IfOk result (λ found. found ≡ map (spec.celled_value fields.now) values.now) }
{
    let mut found = Items::new(alloc);
    for number in 0..values.len() {
        let next = celled_value(alloc, fields, &values[number])?;
        found.push(next)?;
    }
    Ok(found)
}

/// Half of how many values the field has.
pub fn half(tokens: &Tokens, field: u32) -> i64
    requires { AreTokens tokens.now }
    ensures { result ≡ half_of tokens.now field }
{
    match tokens.field(FieldId(field)) {
        Some(field) => 1i64 << (field.hi - field.lo),
        None => 1,
    }
}

/// The same of each field.
pub fn halves(alloc: Global, tokens: &Tokens, fields: &[u32]) -> Result<Items<i64>, NoMemory>
    requires { AreTokens tokens.now }
    ensures { IfOk result (λ found. found ≡ map (half_of tokens.now) fields.now) }
{
    let mut found = Items::new(alloc);
    for field in fields {
        found.push(half(tokens, *field))?;
    }
    Ok(found)
}

fn is_field_operand(field: u32, kind: OperandKind) -> bool
    ensures { result ≡ is_field_operand_of field kind }
{
    match kind {
        OperandKind::Plain(FieldId(other)) | OperandKind::Extended(FieldId(other)) => {
            other == field
        }
        OperandKind::Typed(_) | OperandKind::Whole | OperandKind::Sliced => false,
    }
}

fn source_of(kind: OperandKind, operand: u32) -> Source
    ensures { result ≡ spec.source_of kind operand }
{
    match kind {
        OperandKind::Plain(_) => Source::Plain(operand),
        OperandKind::Extended(_) => Source::Extended(operand),
        OperandKind::Typed(_) | OperandKind::Whole | OperandKind::Sliced => Source::Hidden,
    }
}

fn source(kinds: &[OperandKind], field: u32) -> Source
    requires { length kinds.now ≤ 16 }
    ensures { result ≡ spec.source_from 0 kinds.now field }
{
    for operand in 0..kinds.len() {
        if is_field_operand(field, kinds[operand]) {
            return source_of(kinds[operand], operand as u32);
        }
    }
    Source::Hidden
}

/// Where the value of each field comes from, if the operands are of these kinds.
pub fn sources(alloc: Global, kinds: &[OperandKind], fields: &[u32]) -> Result<SourceList, NoMemory>
    requires { length kinds.now ≤ 16 }
    ensures { IfOk result (λ found. found ≡ map (spec.source_from 0 kinds.now) fields.now) }
{
    let mut found = Items::new(alloc);
    for field in fields {
        found.push(source(kinds, *field))?;
    }
    Ok(found)
}

fn is_hidden(source: Source) -> bool
    ensures { result ≡ is_hidden_source source }
{
    match source {
        Source::Hidden => true,
        Source::Plain(_) | Source::Extended(_) => false,
    }
}

/// Which sources are hidden.
pub fn hidden(alloc: Global, sources: &[Source]) -> Result<Items<bool>, NoMemory>
    ensures { IfOk result (λ found. found ≡ map is_hidden_source sources.now) }
{
    let mut found = Items::new(alloc);
    for source in sources {
        found.push(is_hidden(*source))?;
    }
    Ok(found)
}
