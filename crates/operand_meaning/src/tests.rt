// The constructor `k(n) { n = 2 * x - 3 } is x`, over the field x.
ghost use Rattle.std.specs.Prelude.{◌≡◌, true, false, [], ◌∷◌, IfOk};
ghost use Rattle.sled_parser.specs.declared.tree.PlaceTree.TheVariants as place;
ghost use Rattle.sled_parser.specs.declared.tree.TermTree.TheVariants as term;
ghost use Rattle.operand_meaning.specs.Terms.{have_equations_in_range, is_equation_in_range};

use crate::{
    are_equations_known, are_within_limits, equations_of, explicit_names, names_stand,
    operand_kinds, operand_names,
};
use sled_base::NoMemory;
use sled_model::{Atom, EquationList, KindList, OperandKind, Term};
use sled_parser::tree::{
    EqTree, EqTreeList, OperandTree, OperandTreeList, PlaceTree, Spelling, SumTree, TermTree,
    TermTreeList,
};
use std::alloc::Global;
use std::test::Fail;
use token_bits::FieldId;
use tree_meaning::{Meaning, MeaningList, NameTable, Scope};

/// The field `x`.
fn scope(alloc: Global) -> Result<Scope<'static>, NoMemory> {
    let mut names = NameTable::new(alloc);
    names.add(b"x")?;
    let mut meanings = MeaningList::new(alloc);
    meanings.push(Meaning::Field(FieldId(0)))?;
    Ok(Scope {
        names,
        meanings,
        local_names: NameTable::new(alloc),
        local_meanings: MeaningList::new(alloc),
    })
}

/// The operand `n`.
fn operands(alloc: Global) -> Result<OperandTreeList, NoMemory> {
    let mut operands = OperandTreeList::new(alloc);
    operands.push(OperandTree::Word(Spelling::from_slice(alloc, b"n")?))?;
    Ok(operands)
}

fn word(alloc: Global, spelling: &[u8]) -> Result<PlaceTree, NoMemory>
    ensures { IfOk result (λ p. p ≡ place.Word spelling.now) }
{
    Ok(PlaceTree::Word(Spelling::from_slice(alloc, spelling)?))
}

fn term(coefficient: Option<Spelling>, place: PlaceTree) -> TermTree
    ensures { result ≡ term.Place false coefficient place }
{
    TermTree::Place {
        minus: false,
        coefficient,
        place,
    }
}

fn one(alloc: Global, first: TermTree) -> Result<SumTree, NoMemory>
    ensures { IfOk result (λ s. s.terms ≡ first ∷ []) }
{
    let mut terms = TermTreeList::new(alloc);
    terms.push(first)?;
    Ok(SumTree { terms })
}

fn two(alloc: Global, first: TermTree, second: TermTree) -> Result<SumTree, NoMemory>
    ensures { IfOk result (λ s. s.terms ≡ first ∷ second ∷ []) }
{
    let mut terms = TermTreeList::new(alloc);
    terms.push(first)?;
    terms.push(second)?;
    Ok(SumTree { terms })
}

#[tactic(auto, unfolding(sled_lexer::specs::Spelled::number_value))]
fn equation(alloc: Global) -> Result<EqTree, NoMemory>
    ensures { IfOk result (λ e. is_equation_in_range e ≡ true) }
{
    let double = Spelling::from_slice(alloc, b"2")?;
    let number = Spelling::from_slice(alloc, b"3")?;
    let (n, x) = (word(alloc, b"n")?, word(alloc, b"x")?);
    let three = TermTree::Number {
        minus: true,
        number,
    };
    Ok(EqTree {
        left: one(alloc, term(None, n))?,
        right: two(alloc, term(Some(double), x), three)?,
    })
}

fn equations(alloc: Global) -> Result<EqTreeList, NoMemory>
    ensures { IfOk result (λ es. have_equations_in_range es ≡ true) }
{
    let mut equations = EqTreeList::new(alloc);
    equations.push(equation(alloc)?)?;
    Ok(equations)
}

fn kinds(alloc: Global) -> Result<Option<KindList>, NoMemory> {
    let (scope, operands) = (scope(alloc)?, operands(alloc)?);
    let equations = equations(alloc)?;
    operand_kinds(alloc, &scope, operands.as_slice(), equations.as_slice())
}

fn are_known(alloc: Global) -> Result<bool, NoMemory> {
    let (scope, operands) = (scope(alloc)?, operands(alloc)?);
    let (equations, labels) = (equations(alloc)?, NameTable::new(alloc));
    are_equations_known(
        alloc,
        &scope,
        &labels,
        operands.as_slice(),
        equations.as_slice(),
    )
}

fn stand(alloc: Global, bound: &NameTable<'_>) -> Result<bool, NoMemory> {
    let (scope, operands) = (scope(alloc)?, operands(alloc)?);
    let (equations, labels) = (equations(alloc)?, NameTable::new(alloc));
    names_stand(
        alloc,
        &scope,
        bound,
        &labels,
        operands.as_slice(),
        equations.as_slice(),
    )
}

fn made(alloc: Global) -> Result<Option<EquationList>, NoMemory> {
    let (scope, operands) = (scope(alloc)?, operands(alloc)?);
    let (equations, labels) = (equations(alloc)?, NameTable::new(alloc));
    let (operands, equations) = (operands.as_slice(), equations.as_slice());
    let within = are_within_limits(alloc, &scope, operands, equations)?;
    if !within {
        return Ok(None);
    }
    Ok(Some(equations_of(alloc, &scope, &labels, operands, equations)?))
}

#[test]
fn names_of_operands(rt: HostRuntime) -> Result<(), Fail> {
    let alloc = rt.alloc();
    let operands = operands(alloc)?;
    assert_eq!(rt; operand_names(alloc, operands.as_slice())?.len(), 1);
    assert_eq!(rt; explicit_names(alloc, operands.as_slice())?.len(), 0);
    Ok(())
}

#[test]
fn kinds_of_operands(rt: HostRuntime) -> Result<(), Fail> {
    let kinds = kinds(rt.alloc())?.expect(&rt, "each operand is something");
    assert_eq!(rt; kinds.get(0), Some(&OperandKind::Whole));
    Ok(())
}

#[test]
fn conditions(rt: HostRuntime) -> Result<(), Fail> {
    let alloc = rt.alloc();
    assert!(rt; are_known(alloc)?);
    let mut bound = NameTable::new(alloc);
    assert!(rt; !stand(alloc, &bound)?);
    bound.add(b"x")?;
    assert!(rt; stand(alloc, &bound)?);
    Ok(())
}

#[test]
fn what_an_equation_means(rt: HostRuntime) -> Result<(), Fail> {
    let made = made(rt.alloc())?.expect(&rt, "the limits are kept");
    let equation = made.get(0).expect(&rt, "there is one");
    assert_eq!(rt; equation.rest, 3);
    let double = Term {
        coefficient: -2,
        atom: Atom::Field(FieldId(0)),
    };
    assert_eq!(rt; equation.terms.get(1), Some(&double));
    Ok(())
}
