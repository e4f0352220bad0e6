// The patterns of small trees.
ghost use Rattle.std.specs.Prelude.{◌≡◌, true, IfOk};
ghost use Rattle.tree_meaning.specs.Values.{is_in_range, has_numbers_in_range};

use crate::{
    Meaning, MeaningList, NameTable, Scope, all_fit, is_one_number, number_count, patterns_of,
    value_count,
};
use sled_base::NoMemory;
use sled_lexer::number_in_range;
use sled_model::{Pattern, PatternList};
use sled_parser::tree::{PatternTree, Spelling, SpellingList, ValueTree};
use std::alloc::Global;
use std::test::Fail;
use token_bits::{Class, ClassId, Field, FieldId, Order, Tokens};

fn number(alloc: Global, text: &[u8]) -> Result<Spelling, Fail>
    ensures { IfOk result (λ n. is_in_range n ≡ true) }
{
    if number_in_range(text).is_none() {
        return Err(Fail::new("the number is too great"));
    }
    Ok(Spelling::from_slice(alloc, text)?)
}

/// `{1 to 3}`
fn one_to_three(alloc: Global) -> Result<ValueTree, Fail>
    ensures { IfOk result (λ v. has_numbers_in_range v ≡ true) }
{
    Ok(ValueTree::Range {
        first: number(alloc, b"1")?,
        last: number(alloc, b"3")?,
    })
}

/// `{5 7}`
fn five_and_seven(alloc: Global) -> Result<ValueTree, Fail>
    ensures { IfOk result (λ v. has_numbers_in_range v ≡ true) }
{
    let mut numbers = SpellingList::new(alloc);
    numbers.push(number(alloc, b"5")?)?;
    numbers.push(number(alloc, b"7")?)?;
    Ok(ValueTree::Listed(numbers))
}

/// The fields `x` and `y`, a pattern `p` and a group `g`.
fn scope(alloc: Global) -> Result<Scope<'static>, Fail> {
    let mut names = NameTable::new(alloc);
    names.add(b"x")?;
    names.add(b"y")?;
    names.add(b"p")?;
    names.add(b"g")?;
    let mut members = PatternList::new(alloc);
    members.push(Pattern::Token(ClassId(0)))?;
    members.push(Pattern::Empty)?;
    let mut meanings = MeaningList::new(alloc);
    meanings.push(Meaning::Field(FieldId(0)))?;
    meanings.push(Meaning::Field(FieldId(1)))?;
    meanings.push(Meaning::Pattern(Pattern::Bind(FieldId(1))))?;
    meanings.push(Meaning::Group(members))?;
    Ok(Scope {
        names,
        meanings,
        local_names: NameTable::new(alloc),
        local_meanings: MeaningList::new(alloc),
    })
}

#[test]
fn a_named_pattern_and_a_group(rt: HostRuntime) -> Result<(), Fail> {
    let alloc = rt.alloc();
    let names = NameTable::new(alloc);
    let named = PatternTree::Word(Spelling::from_slice(alloc, b"p")?);
    let patterns = patterns_of(alloc, &scope(alloc)?, &names, &named)?;
    assert!(rt; matches!(patterns.as_slice(), [Pattern::Bind(FieldId(1))]));
    let group = PatternTree::Word(Spelling::from_slice(alloc, b"g")?);
    let patterns = patterns_of(alloc, &scope(alloc)?, &names, &group)?;
    let Some(Pattern::Either(members)) = patterns.get(0) else {
        return Err(Fail::new("the group is no choice"));
    };
    assert!(rt; matches!(members.as_slice(), [Pattern::Token(_), Pattern::Empty]));
    Ok(())
}

#[test]
fn numbers_of_a_field(rt: HostRuntime) -> Result<(), Fail> {
    let alloc = rt.alloc();
    let mut tokens = Tokens::new(alloc);
    let class = tokens.add_class(Class {
        width: 8,
        order: Order::Big,
    })?;
    let narrow = tokens.add_field(Field {
        class,
        lo: 3,
        hi: 4,
    })?;
    assert_eq!(rt; value_count(&tokens, narrow), 4);
    let range = one_to_three(alloc)?;
    assert!(rt; all_fit(&tokens, narrow, &range) && !is_one_number(&range));
    assert_eq!(rt; number_count(&range), 3);
    assert!(rt; !all_fit(&tokens, narrow, &five_and_seven(alloc)?));
    Ok(())
}
