// Descriptions.
ghost use Rattle.std.specs.Prelude.{◌≡◌, ◌++◌, ◌∷◌, [], length, map, slice_get, position, bytes_eq, IfOk, OnOk, OnErr};
ghost use Rattle.std.specs.Option.{option_copied, option_map};
ghost use Rattle.token_bits.specs.Tokens.{IsWidth, IsFieldOf};
ghost use Rattle.sled_model.specs.Specs.{IsSpec, IsConstructorOf, IsNewName, IsNewConstructorName, constructor_names_of};

use crate::{
    Constructor, ConstructorId, ConstructorList, ConstructorNames, Name, NameList, TypeId,
};
use sled_base::NoMemory;
use sqlite_items::Items;
use std::alloc::Global;
use token_bits::{Class, ClassId, Field, FieldId, Tokens};

/// A description of a machine. Name k of `class_names` is that of class k, name k of `field_names` that of field k, and name k of
/// `type_names` that of type k. `constructor_names` has the names of the constructors, in order.
#[derive(Debug, Drop)]
pub struct Spec {
    pub tokens: Tokens,
    pub class_names: NameList,
    pub field_names: NameList,
    pub type_names: NameList,
    pub constructors: ConstructorList,
    pub constructor_names: ConstructorNames,
}

impl Spec {
    /// The description that declares nothing.
    pub fn new(alloc: Global) -> Spec
        ensures nothing { result ≡ record { tokens = record { classes = []; fields = [] }; class_names = []; field_names = []; type_names = []; constructors = []; constructor_names = [] } }
        ensures sound { IsSpec result }
    {
        Spec {
            tokens: Tokens::new(alloc),
            class_names: Items::new(alloc),
            field_names: Items::new(alloc),
            type_names: Items::new(alloc),
            constructors: Items::new(alloc),
            constructor_names: ConstructorNames::new(alloc),
        }
    }

    /// Its classes and fields.
    pub fn tokens(&self) -> &Tokens
        ensures { result.now ≡ self.now.tokens }
    {
        &self.tokens
    }

    /// The name of a field, or None where no name has this number.
    pub fn field_name(&self, id: FieldId) -> Option<&[u8]>
        ensures { option_copied result ≡ slice_get self.now.field_names id.0 }
    {
        Some(self.field_names.get(id.0 as usize)?.as_slice())
    }

    /// The constructor of this number, or None where there is no such number.
    pub fn constructor(&self, id: ConstructorId) -> Option<&Constructor>
        ensures { option_copied result ≡ slice_get self.now.constructors id.0 }
    {
        self.constructors.get(id.0 as usize)
    }

    /// The number of the constructor of this name, or None where there is no such constructor. It is found by hash.
    pub fn find(&self, name: &[u8]) -> Option<ConstructorId>
        requires sound { IsSpec self.now }
        ensures { option_map (λ id. id.0) result ≡ position (bytes_eq name.now) (constructor_names_of self.now) }
    {
        let number = self.constructor_names.find(name)?;
        Some(ConstructorId(number as u32))
    }

    /// Adds a class of this name, and gives its number. `NoMemory` also where every number is taken.
    pub fn add_class(&mut self, name: Name, class: Class) -> Result<ClassId, NoMemory>
        requires sound { IsSpec self.old }
        requires width { IsWidth class.width }
        requires fresh { IsNewName self.old name }
        ensures number { IfOk result (λ id. id.0 ≡ length self.old.tokens.classes) }
        ensures added { OnOk result (self.new ≡ record self.old { tokens = record self.old.tokens { classes = self.old.tokens.classes ++ class ∷ [] }; class_names = self.old.class_names ++ name ∷ [] }) }
        ensures err { OnErr result (self.new ≡ self.old) }
        ensures sound { IsSpec self.new }
    {
        self.class_names.push(name)?;
        match self.tokens.add_class(class) {
            Ok(id) => Ok(id),
            Err(NoMemory) => {
                self.class_names.pop();
                Err(NoMemory)
            }
        }
    }

    /// Adds a field of this name, and gives its number. `NoMemory` also where every number is taken.
    pub fn add_field(&mut self, name: Name, field: Field) -> Result<FieldId, NoMemory>
        requires sound { IsSpec self.old }
        requires place { IsFieldOf self.old.tokens.classes field }
        requires fresh { IsNewName self.old name }
        ensures number { IfOk result (λ id. id.0 ≡ length self.old.tokens.fields) }
        ensures added { OnOk result (self.new ≡ record self.old { tokens = record self.old.tokens { fields = self.old.tokens.fields ++ field ∷ [] }; field_names = self.old.field_names ++ name ∷ [] }) }
        ensures err { OnErr result (self.new ≡ self.old) }
        ensures sound { IsSpec self.new }
    {
        self.field_names.push(name)?;
        match self.tokens.add_field(field) {
            Ok(id) => Ok(id),
            Err(NoMemory) => {
                self.field_names.pop();
                Err(NoMemory)
            }
        }
    }

    /// Adds a type of this name, and gives its number. `NoMemory` also where every number is taken.
    pub fn add_type(&mut self, name: Name) -> Result<TypeId, NoMemory>
        requires sound { IsSpec self.old }
        requires fresh { IsNewName self.old name }
        ensures number { IfOk result (λ id. id.0 ≡ length self.old.type_names) }
        ensures added { OnOk result (self.new ≡ record self.old { type_names = self.old.type_names ++ name ∷ [] }) }
        ensures err { OnErr result (self.new ≡ self.old) }
        ensures sound { IsSpec self.new }
    {
        let Ok(number) = u32::try_from(self.type_names.len()) else {
            return Err(NoMemory);
        };
        self.type_names.push(name)?;
        Ok(TypeId(number))
    }

    /// Adds a constructor, and gives its number. `NoMemory` also where every number is taken.
    pub fn add_constructor(&mut self, constructor: Constructor) -> Result<ConstructorId, NoMemory>
        requires sound { IsSpec self.old }
        requires fresh { IsNewConstructorName self.old constructor.name }
        requires known { IsConstructorOf self.old.tokens (length self.old.type_names) constructor }
        ensures number { IfOk result (λ id. id.0 ≡ length self.old.constructors) }
        ensures added { OnOk result (self.new ≡ record self.old { constructors = self.old.constructors ++ constructor ∷ []; constructor_names = self.old.constructor_names ++ constructor.name ∷ [] }) }
        ensures err { OnErr result (self.new ≡ self.old) }
        ensures sound { IsSpec self.new }
    {
        let Ok(number) = u32::try_from(self.constructors.len()) else {
            return Err(NoMemory);
        };
        self.constructor_names.add(constructor.name.as_slice())?;
        match self.constructors.push(constructor) {
            Ok(()) => Ok(ConstructorId(number)),
            Err(_) => {
                self.constructor_names.forget_last();
                Err(NoMemory)
            }
        }
    }
}
