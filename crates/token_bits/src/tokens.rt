// Token classes and fields.
ghost use Rattle.std.specs.Prelude.{◌≡◌, ◌++◌, ◌∷◌, [], length, slice_get, IfOk, OnOk, OnErr};
ghost use Rattle.token_bits.specs.Tokens.{byte_count, class_of, token_len, IsWidth, IsFieldOf, AreTokens};

use sled_base::NoMemory;
use sqlite_items::Items;
use std::alloc::Global;

/// The order in which the bytes of a token stand.
#[derive(Clone, Copy, Debug, PartialEq, Eq)]
pub enum Order {
    /// The most significant byte comes first.
    Big,
    /// The least significant byte comes first.
    Little,
}

/// A class of tokens. Its width in bits is 8, 16 or 32.
#[derive(Clone, Copy, Debug, PartialEq, Eq)]
pub struct Class {
    pub width: u8,
    pub order: Order,
}

/// The number of a class, counted from 0.
#[derive(Clone, Copy, Debug, PartialEq, Eq)]
pub struct ClassId(pub u32);

/// A field: the bits `lo` to `hi` of a class's token, where bit 0 is the least significant.
#[derive(Clone, Copy, Debug, PartialEq, Eq)]
pub struct Field {
    pub class: ClassId,
    pub lo: u8,
    pub hi: u8,
}

/// The number of a field, counted from 0.
#[derive(Clone, Copy, Debug, PartialEq, Eq)]
pub struct FieldId(pub u32);

pub type ClassList = Items<Class>;

pub type FieldList = Items<Field>;

/// The classes and fields of a description, each by its number.
#[derive(Debug, Drop)]
pub struct Tokens {
    pub classes: ClassList,
    pub fields: FieldList,
}

impl Tokens {
    /// No classes and no fields.
    pub fn new(alloc: Global) -> Tokens
        ensures classes { result.classes ≡ [] }
        ensures fields { result.fields ≡ [] }
        ensures sound { AreTokens result }
    {
        Tokens {
            classes: Items::new(alloc),
            fields: Items::new(alloc),
        }
    }

    /// Adds a class, and gives its number. `NoMemory` also where every number is taken.
    pub fn add_class(&mut self, class: Class) -> Result<ClassId, NoMemory>
        requires sound { AreTokens self.old }
        requires width { IsWidth class.width }
        ensures number { IfOk result (λ id. id.0 ≡ length self.old.classes) }
        ensures added { OnOk result (self.new ≡ record self.old { classes = self.old.classes ++ class ∷ [] }) }
        ensures err { OnErr result (self.new ≡ self.old) }
        ensures sound { AreTokens self.new }
    {
        let Ok(number) = u32::try_from(self.classes.len()) else {
            return Err(NoMemory);
        };
        self.classes.push(class)?;
        Ok(ClassId(number))
    }

    /// Adds a field, and gives its number. `NoMemory` also where every number is taken.
    pub fn add_field(&mut self, field: Field) -> Result<FieldId, NoMemory>
        requires sound { AreTokens self.old }
        requires place { IsFieldOf self.old.classes field }
        ensures number { IfOk result (λ id. id.0 ≡ length self.old.fields) }
        ensures added { OnOk result (self.new ≡ record self.old { fields = self.old.fields ++ field ∷ [] }) }
        ensures err { OnErr result (self.new ≡ self.old) }
        ensures sound { AreTokens self.new }
    {
        let Ok(number) = u32::try_from(self.fields.len()) else {
            return Err(NoMemory);
        };
        self.fields.push(field)?;
        Ok(FieldId(number))
    }

    /// The class of this number, or None where there is no such number.
    pub fn class(&self, id: ClassId) -> Option<Class>
        ensures { result ≡ slice_get self.now.classes id.0 }
    {
        self.classes.get(id.0 as usize).copied()
    }

    /// The field of this number, or None where there is no such number.
    pub fn field(&self, id: FieldId) -> Option<Field>
        ensures { result ≡ slice_get self.now.fields id.0 }
    {
        self.fields.get(id.0 as usize).copied()
    }

    /// The class of the field's token, or None where there is no such field.
    pub fn class_of(&self, field: FieldId) -> Option<Class>
        ensures { result ≡ class_of self.now field }
    {
        self.class(self.field(field)?.class)
    }

    /// How many bytes a token of the field's class has, or 0 where there is no such field.
    pub fn token_len(&self, field: FieldId) -> usize
        ensures { result ≡ token_len self.now field }
    {
        match self.class_of(field) {
            Some(class) => class.byte_count(),
            None => 0,
        }
    }
}

impl Class {
    /// How many bytes a token of the class has.
    pub fn byte_count(self) -> usize
        ensures { result ≡ byte_count self }
    {
        (self.width / 8) as usize
    }
}
