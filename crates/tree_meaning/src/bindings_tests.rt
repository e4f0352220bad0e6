// What small patterns bind.
use crate::{Meaning, MeaningList, NameTable, Scope, bindings_of};
use sled_base::NoMemory;
use sled_parser::tree::{PatternTree, PatternTreeList, Spelling};
use sqlite_items::Boxed;
use std::alloc::Global;
use std::test::Fail;
use token_bits::FieldId;

/// The fields `x` and `y`.
fn fields(alloc: Global) -> Result<Scope<'static>, NoMemory> {
    let mut names = NameTable::new(alloc);
    names.add(b"x")?;
    names.add(b"y")?;
    let mut meanings = MeaningList::new(alloc);
    meanings.push(Meaning::Field(FieldId(0)))?;
    meanings.push(Meaning::Field(FieldId(1)))?;
    Ok(Scope {
        names,
        meanings,
        local_names: NameTable::new(alloc),
        local_meanings: MeaningList::new(alloc),
    })
}

fn word(alloc: Global, spelling: &[u8]) -> Result<PatternTree, NoMemory> {
    Ok(PatternTree::Word(Spelling::from_slice(alloc, spelling)?))
}

fn pair(
    alloc: Global,
    first: PatternTree,
    second: PatternTree,
) -> Result<PatternTreeList, NoMemory> {
    let mut trees = PatternTreeList::new(alloc);
    trees.push(first)?;
    trees.push(second)?;
    Ok(trees)
}

#[test]
fn a_chain_with_a_label(rt: HostRuntime) -> Result<(), Fail> {
    let alloc = rt.alloc();
    let scope = fields(alloc)?;
    let labelled = PatternTree::Labelled {
        label: Spelling::from_slice(alloc, b"L")?,
        pattern: Boxed::new(alloc, word(alloc, b"y")?)?,
    };
    let tree = PatternTree::Chain(pair(alloc, word(alloc, b"x")?, labelled)?);
    let found = bindings_of(alloc, &scope, &tree)?;
    assert_eq!(rt; found.names.len(), 3);
    assert_eq!(rt; found.names.get(1), Some(b"L".as_slice()));
    assert_eq!(rt; found.names.find(b"y"), Some(2));
    assert!(rt; found.once && found.alike && found.free);
    Ok(())
}

#[test]
fn sides_that_differ(rt: HostRuntime) -> Result<(), Fail> {
    let alloc = rt.alloc();
    let scope = fields(alloc)?;
    let tree = PatternTree::Either(pair(alloc, word(alloc, b"x")?, word(alloc, b"y")?)?);
    let found = bindings_of(alloc, &scope, &tree)?;
    assert_eq!(rt; found.names.len(), 2);
    assert!(rt; found.once && !found.alike && !found.free);
    Ok(())
}

#[test]
fn a_name_twice(rt: HostRuntime) -> Result<(), Fail> {
    let alloc = rt.alloc();
    let scope = fields(alloc)?;
    let tree = PatternTree::Both(pair(alloc, word(alloc, b"x")?, word(alloc, b"x")?)?);
    let found = bindings_of(alloc, &scope, &tree)?;
    assert_eq!(rt; found.names.len(), 1);
    assert!(rt; !found.once);
    Ok(())
}
