// The equations that trees stand for.
ghost use Rattle.std.specs.Prelude.{◌≡◌, ◌≤◌, ◌<◌, ◌^◌, ◌++◌, length, true, IfOk, IfSome, OnOk, position, ◌+ℤ◌};
ghost use Rattle.std.specs.List.{list_all, filter_map};
ghost use Rattle.std.specs.Option.{option_map_or, option_to_list};
ghost use Rattle.sled_lexer.specs.Spelled.{number_value as value_of};
ghost use Rattle.sled_model.specs.Linear.{IsWithin};
ghost use Rattle.tree_meaning.specs.NameTables.{table_names};
ghost use Rattle.tree_meaning.specs.Patterns.{field_or_first as field_or_first_of};
ghost use Rattle.tree_meaning.specs.Scopes.{declared_in};
ghost use Rattle.tree_meaning.specs.Values.{is_in_range};
ghost use Rattle.operand_meaning.specs.Equations as of;
ghost use Rattle.operand_meaning.specs.Limits.{are_within_limits, can_be_held, has_bits, has_slice_bits, has_term_bits};
ghost use Rattle.operand_meaning.specs.Terms.{equation_terms, is_term_in_range, is_place_in_range, is_equation_in_range, have_equations_in_range};

use sled_base::NoMemory;
use sled_lexer::number_value;
use sled_model::{Atom, Equation, EquationList, Term, TermList};
use sled_parser::tree::{EqTree, OperandTree, PlaceTree, Spelling, TermTree};
use std::alloc::Global;
use token_bits::FieldId;
use tree_meaning::{NameTable, Scope};

/// The equations that the trees stand for, where condition 11 is met and each Number is at most 4,294,967,295. `labels` has the labels of
/// the body, in order.
pub fn equations_of(
    alloc: Global,
    scope: &Scope<'_>,
    labels: &NameTable<'_>,
    operands: &[OperandTree],
    equations: &[EqTree],
) -> Result<EquationList, NoMemory>
    requires numbers { have_equations_in_range equations.now ≡ true }
    requires limits { are_within_limits (declared_in scope.now) operands.now equations.now ≡ true }
    requires labels { length (table_names labels.now) < 2 ^ 32 }
    ensures { IfOk result (λ made. made ≡ of.equations_of (declared_in scope.now) (table_names labels.now) operands.now equations.now) }
{
    all_equations(alloc, scope, labels, operands, equations)
}

fn all_equations(
    alloc: Global,
    scope: &Scope<'_>,
    labels: &NameTable<'_>,
    operands: &[OperandTree],
    equations: &[EqTree],
) -> Result<EquationList, NoMemory>
    requires numbers { have_equations_in_range equations.now ≡ true }
    requires held { list_all can_be_held equations.now ≡ true }
    requires operands { length operands.now ≤ 16 }
    requires labels { length (table_names labels.now) < 2 ^ 32 }
    ensures { IfOk result (λ made. made ≡ of.equations_of (declared_in scope.now) (table_names labels.now) operands.now equations.now) }
{
    let mut made = EquationList::new(alloc);
    for equation in equations {
        made.push(equation_of(alloc, scope, labels, operands, equation)?)?;
    }
    Ok(made)
}

fn equation_of(
    alloc: Global,
    scope: &Scope<'_>,
    labels: &NameTable<'_>,
    operands: &[OperandTree],
    equation: &EqTree,
) -> Result<Equation, NoMemory>
    requires numbers { is_equation_in_range equation.now ≡ true }
    requires held { can_be_held equation.now ≡ true }
    requires operands { length operands.now ≤ 16 }
    requires labels { length (table_names labels.now) < 2 ^ 32 }
    ensures { IfOk result (λ made. made ≡ of.equation_of (declared_in scope.now) (table_names labels.now) operands.now equation.now) }
{
    let (left, right) = (
        equation.left.terms.as_slice(),
        equation.right.terms.as_slice(),
    );
    let mut terms = TermList::new(alloc);
    push_terms(scope, labels, operands, false, left, &mut terms)?;
    push_terms(scope, labels, operands, true, right, &mut terms)?;
    let rest = plus(sum_of(false, left), sum_of(true, right));
    Ok(Equation { terms, rest })
}

fn push_terms(
    scope: &Scope<'_>,
    labels: &NameTable<'_>,
    operands: &[OperandTree],
    turned: bool,
    trees: &[TermTree],
    terms: &mut TermList,
) -> Result<(), NoMemory>
    requires numbers { list_all is_term_in_range trees.now ≡ true }
    requires bits { list_all has_term_bits trees.now ≡ true }
    requires operands { length operands.now ≤ 16 }
    requires labels { length (table_names labels.now) < 2 ^ 32 }
    ensures { OnOk result (terms.new ≡ terms.old ++ filter_map (of.term_of (declared_in scope.now) (table_names labels.now) operands.now turned) trees.now) }
{
    for tree in trees {
        push_term(terms, term_of(scope, labels, operands, turned, tree))?;
    }
    Ok(())
}

fn push_term(terms: &mut TermList, term: Option<Term>) -> Result<(), NoMemory>
    ensures { OnOk result (terms.new ≡ terms.old ++ option_to_list term) }
{
    let Some(term) = term else {
        return Ok(());
    };
    terms.push(term)?;
    Ok(())
}

fn term_of(
    scope: &Scope<'_>,
    labels: &NameTable<'_>,
    operands: &[OperandTree],
    turned: bool,
    tree: &TermTree,
) -> Option<Term>
    requires numbers { is_term_in_range tree.now ≡ true }
    requires bits { has_term_bits tree.now ≡ true }
    requires operands { length operands.now ≤ 16 }
    requires labels { length (table_names labels.now) < 2 ^ 32 }
    ensures { result ≡ of.term_of (declared_in scope.now) (table_names labels.now) operands.now turned tree.now }
{
    match tree {
        TermTree::Number { .. } => None,
        TermTree::Place {
            minus,
            coefficient,
            place,
        } => Some(Term {
            coefficient: signed(is_negative(turned, *minus), coefficient_of(coefficient)),
            atom: place_atom(scope, labels, operands, place),
        }),
    }
}

fn is_negative(turned: bool, minus: bool) -> bool
    ensures { result ≡ of.is_negative turned minus }
{
    if turned { !minus } else { minus }
}

fn signed(negative: bool, number: u32) -> i64
    ensures value { result ≡ of.signed negative number }
    ensures within { IsWithin (2 ^ 32) result }
{
    if negative {
        -i64::from(number)
    } else {
        i64::from(number)
    }
}

fn coefficient_of(coefficient: &Option<Spelling>) -> u32
    requires { option_map_or is_in_range coefficient.now true ≡ true }
    ensures { result ≡ option_map_or value_of coefficient.now 1 }
{
    match coefficient {
        Some(number) => number_value(number.as_slice()),
        None => 1,
    }
}

fn place_atom(
    scope: &Scope<'_>,
    labels: &NameTable<'_>,
    operands: &[OperandTree],
    place: &PlaceTree,
) -> Atom
    requires numbers { is_place_in_range place.now ≡ true }
    requires bits { has_slice_bits place.now ≡ true }
    requires operands { length operands.now ≤ 16 }
    requires labels { length (table_names labels.now) < 2 ^ 32 }
    ensures { result ≡ of.place_atom (declared_in scope.now) (table_names labels.now) operands.now place.now }
{
    match place {
        PlaceTree::Word(word) => word_atom(scope, labels, operands, word.as_slice()),
        PlaceTree::Extended(word) => Atom::Signed(field_or_first(scope, word.as_slice())),
        PlaceTree::Slice { word, lo, hi } => Atom::Slice {
            operand: number_of(scope, operands, word.as_slice()).unwrap_or(0),
            lo: bit_of(lo.as_slice()),
            hi: bit_of(hi.as_slice()),
        },
    }
}

// The number of a bit.
fn bit_of(number: &[u8]) -> u8
    requires { value_of number.now ≤ 31 }
    ensures { result ≡ value_of number.now }
{
    number_value(number) as u8
}

fn word_atom(
    scope: &Scope<'_>,
    labels: &NameTable<'_>,
    operands: &[OperandTree],
    word: &[u8],
) -> Atom
    requires operands { length operands.now ≤ 16 }
    requires labels { length (table_names labels.now) < 2 ^ 32 }
    ensures { result ≡ of.word_atom (declared_in scope.now) (table_names labels.now) operands.now word.now }
{
    match number_of(scope, operands, word) {
        Some(number) => Atom::Name(number),
        None => label_or_field(scope, labels, word),
    }
}

fn label_or_field(scope: &Scope<'_>, labels: &NameTable<'_>, word: &[u8]) -> Atom
    requires { length (table_names labels.now) < 2 ^ 32 }
    ensures { result ≡ of.label_or_field (declared_in scope.now) (table_names labels.now) word.now }
{
    match labels.find(word) {
        Some(number) => Atom::Label(number as u32),
        None => Atom::Field(field_or_first(scope, word)),
    }
}

fn field_or_first(scope: &Scope<'_>, name: &[u8]) -> FieldId
    ensures { result ≡ field_or_first_of (declared_in scope.now) name.now }
{
    scope.field_named(name).unwrap_or(FieldId(0))
}

// The number of the whole-number operand of that name.
fn number_of(scope: &Scope<'_>, operands: &[OperandTree], word: &[u8]) -> Option<u32>
    requires { length operands.now ≤ 16 }
    ensures { result ≡ of.number_of (declared_in scope.now) operands.now word.now }
{
    if scope.find(word).is_some() {
        return None;
    }
    match lone_at(operands, word) {
        Some(at) => Some(at as u32),
        None => None,
    }
}

// The place of the operand that is this lone word.
fn lone_at(operands: &[OperandTree], word: &[u8]) -> Option<usize>
    ensures place { result ≡ position (of.is_lone word.now) operands.now }
    ensures within { IfSome result (λ at. at < length operands.now) }
{
    operands.iter().position(|operand| is_lone(word, operand))
}

fn is_lone(word: &[u8], operand: &OperandTree) -> bool
    ensures { result ≡ of.is_lone word.now operand.now }
{
    match operand {
        OperandTree::Word(own) => word == own.as_slice(),
        _ => false,
    }
}

// The sum of the numbers among the terms.
fn sum_of(turned: bool, trees: &[TermTree]) -> i64
    requires few { length trees.now ≤ 16 }
    requires numbers { list_all is_term_in_range trees.now ≡ true }
    ensures value { result ≡ of.sum_of turned trees.now }
    ensures within { IsWithin (2 ^ 36) result }
{
    let mut sum = 0;
    for tree in trees {
        sum = plus(sum, rest_of(turned, tree));
    }
    sum
}

fn rest_of(turned: bool, tree: &TermTree) -> i64
    requires { is_term_in_range tree.now ≡ true }
    ensures value { result ≡ of.rest_of turned tree.now }
    ensures within { IsWithin (2 ^ 32) result }
{
    match tree {
        TermTree::Number { minus, number } => signed(
            is_negative(turned, *minus),
            number_value(number.as_slice()),
        ),
        TermTree::Place { .. } => 0,
    }
}

fn plus(sum: i64, number: i64) -> i64
    requires sum { IsWithin (2 ^ 36) sum }
    requires number { IsWithin (2 ^ 36) number }
    ensures { result ≡ sum +ℤ number }
{
    sum + number
}
