// What names stand for.
ghost use Rattle.std.specs.Prelude.{◌≡◌, ◌<◌, ◌++◌, ◌∷◌, [], OnOk, false, length, slice_set, option_copied};
ghost use Rattle.tree_meaning.specs.Names.{is_among};
ghost use Rattle.tree_meaning.specs.NameTables.{table_names};
ghost use Rattle.tree_meaning.specs.Scopes.{declared_in, meaning_among, meaning_of, field_named as field_of, type_named as type_of};

use crate::names::NameTable;
use sled_base::NoMemory;
use sled_model::{Pattern, PatternList, TypeId};
use sqlite_items::Items;
use std::alloc::Global;
use token_bits::{ClassId, FieldId};

/// What a name stands for.
#[derive(Debug, Drop)]
pub enum Meaning {
    Class(ClassId),
    Field(FieldId),
    /// A named pattern, or a member of a group.
    Pattern(Pattern),
    /// The members of a group, in order.
    Group(PatternList),
    /// A type of constructors.
    Type(TypeId),
    /// In a constructor's body, its operand of this number, which is a typed one.
    Operand(u32),
}

pub type MeaningList = Items<Meaning>;

/// The names that were declared, each found by hash, and what each stands for: meaning k is that of name k. In a constructor's body
/// there are local names besides, numbered alike; each hides the declared name that is spelled as it is.
#[derive(Drop)]
pub struct Scope<'a> {
    pub names: NameTable<'a>,
    pub meanings: MeaningList,
    pub local_names: NameTable<'a>,
    pub local_meanings: MeaningList,
}

impl<'a> Scope<'a> {
    /// The scope in which no name stands.
    pub fn new(alloc: Global) -> Scope<'a>
        ensures { declared_in result ≡ record { names = []; meanings = []; local_names = []; local_meanings = [] } }
    {
        Scope {
            names: NameTable::new(alloc),
            meanings: Items::new(alloc),
            local_names: NameTable::new(alloc),
            local_meanings: Items::new(alloc),
        }
    }

    /// Declares a name that was not declared before. No local name changes.
    pub fn declare(&mut self, name: &'a [u8], meaning: Meaning) -> Result<(), NoMemory>
        requires { is_among (table_names self.old.names) name.now ≡ false }
        ensures { OnOk result (declared_in self.new ≡ record (declared_in self.old) { names = table_names self.old.names ++ name.now ∷ []; meanings = self.old.meanings ++ meaning ∷ [] }) }
    {
        self.names.add(name)?;
        self.meanings.push(meaning)?;
        Ok(())
    }

    /// Adds a local name that is not there yet. No declared name changes.
    pub fn enter(&mut self, name: &'a [u8], meaning: Meaning) -> Result<(), NoMemory>
        requires { is_among (table_names self.old.local_names) name.now ≡ false }
        ensures { OnOk result (declared_in self.new ≡ record (declared_in self.old) { local_names = table_names self.old.local_names ++ name.now ∷ []; local_meanings = self.old.local_meanings ++ meaning ∷ [] }) }
    {
        self.local_names.add(name)?;
        self.local_meanings.push(meaning)?;
        Ok(())
    }

    /// Removes each local name. No declared name changes.
    pub fn leave(&mut self)
        ensures { declared_in self.new ≡ record (declared_in self.old) { local_names = []; local_meanings = [] } }
    {
        self.local_names.clear();
        clear(&mut self.local_meanings);
    }

    /// Gives the local name of that number another meaning.
    pub fn set_local(&mut self, at: usize, meaning: Meaning)
        requires { at < length self.old.local_meanings }
        ensures { declared_in self.new ≡ record (declared_in self.old) { local_meanings = slice_set self.old.local_meanings at meaning } }
    {
        self.local_meanings.set(at, meaning);
    }

    /// What the name stands for: as a local name, or else as a declared one.
    pub fn find(&self, name: &[u8]) -> Option<&Meaning>
        ensures { option_copied result ≡ meaning_of (declared_in self.now) name.now }
    {
        match find_among(&self.local_names, &self.local_meanings, name) {
            Some(meaning) => Some(meaning),
            None => find_among(&self.names, &self.meanings, name),
        }
    }

    /// The field of that name, where it stands for one.
    pub fn field_named(&self, name: &[u8]) -> Option<FieldId>
        ensures { result ≡ field_of (declared_in self.now) name.now }
    {
        match self.find(name)? {
            Meaning::Field(field) => Some(*field),
            _ => None,
        }
    }

    /// The type of that name, where it stands for one.
    pub fn type_named(&self, name: &[u8]) -> Option<TypeId>
        ensures { result ≡ type_of (declared_in self.now) name.now }
    {
        match self.find(name)? {
            Meaning::Type(id) => Some(*id),
            _ => None,
        }
    }
}

fn find_among<'s>(
    names: &NameTable<'_>,
    meanings: &'s MeaningList,
    name: &[u8],
) -> Option<&'s Meaning>
    ensures { option_copied result ≡ meaning_among (table_names names.now) meanings.now name.now }
{
    let at = names.find(name)?;
    meanings.get(at)
}

fn clear(meanings: &mut MeaningList)
    ensures { meanings.new ≡ [] }
{
    while let Some(_) = meanings.pop() {}
}
