// What a result binds, without the values.
ghost use Rattle.std.specs.Prelude.{◌≡◌, map, IfOk};
ghost use Rattle.token_bits.specs.Tokens.{AreTokens};
ghost use Rattle.pattern_normal.specs.Skeletons.{read_spot as read_spot_of, read_entries as read_entries_of, read_skeleton};

use sled_base::NoMemory;
use sled_model::{Argument, ConstructorId, Raw, RawEntry, Spec, copy_arguments};
use sqlite_items::Items;
use std::alloc::Global;
use token_bits::{FieldId, Tokens};

/// What a result binds, without the values of its fields.
#[cycle(skeleton)]
#[derive(Drop)]
pub struct Skeleton {
    pub entries: Items<Spot>,
}

/// An entry of what a result binds, without the value. Offsets count from the first byte of the whole match.
#[cycle(skeleton)]
#[derive(Drop)]
pub enum Spot {
    /// The field is read at this offset.
    Value {
        field: FieldId,
        at: u8,
    },
    /// The label stands at this offset.
    Mark {
        label: u32,
        at: u8,
    },
    /// The constructor was taken, by an application with these arguments, or with none as an operand of a body.
    Choice {
        constructor: ConstructorId,
        inner: Skeleton,
        arguments: Items<Argument>,
    },
}

pub type SpotList = Items<Spot>;

impl Skeleton {
    /// What is bound in the window: the entries with the values of their fields there. A field that is not known, or whose
    /// token does not fit in the window, has the value 0.
    pub fn read(&self, alloc: Global, spec: &Spec, window: &[u8]) -> Result<Raw, NoMemory>
        requires { AreTokens spec.now.tokens }
        ensures { IfOk result (λ raw. raw ≡ read_skeleton spec.now.tokens window.now self.now) }
    {
        let entries = read_entries(alloc, &spec.tokens, self.entries.as_slice(), window)?;
        Ok(Raw { entries })
    }
}

#[cycle(read)]
fn read_entries(
    alloc: Global,
    tokens: &Tokens,
    spots: &[Spot],
    window: &[u8],
) -> Result<Items<RawEntry>, NoMemory>
    requires { AreTokens tokens.now }
    ensures { IfOk result (λ entries. entries ≡ read_entries_of tokens.now window.now spots.now) }
{
    let mut entries = Items::new(alloc);
    for spot in spots {
        entries.push(read_spot(alloc, tokens, spot, window)?)?;
    }
    Ok(entries)
}

#[cycle(read)]
fn read_spot(
    alloc: Global,
    tokens: &Tokens,
    spot: &Spot,
    window: &[u8],
) -> Result<RawEntry, NoMemory>
    requires { AreTokens tokens.now }
    ensures { IfOk result (λ entry. entry ≡ read_spot_of tokens.now window.now spot.now) }
{
    match spot {
        Spot::Value { field, at } => Ok(RawEntry::Value {
            field: *field,
            value: tokens
                .field_value(*field, window, *at as usize)
                .unwrap_or(0),
            at: *at,
        }),
        Spot::Mark { label, at } => Ok(RawEntry::Mark {
            label: *label,
            at: *at,
        }),
        Spot::Choice {
            constructor,
            inner,
            arguments,
        } => Ok(RawEntry::Choice {
            constructor: *constructor,
            inner: Raw {
                entries: read_entries(alloc, tokens, inner.entries.as_slice(), window)?,
            },
            arguments: copy_arguments(alloc, arguments.as_slice())?,
        }),
    }
}

#[cycle(spot_copy)]
pub(crate) fn copy_spots(alloc: Global, spots: &[Spot]) -> Result<Items<Spot>, NoMemory>
    ensures { IfOk result (λ copied. copied ≡ spots.now) }
{
    let mut copied = Items::new(alloc);
    for spot in spots {
        copied.push(spot.copy(alloc)?)?;
    }
    Ok(copied)
}

impl Spot {
    /// An equal spot.
    #[cycle(spot_copy)]
    pub fn copy(&self, alloc: Global) -> Result<Spot, NoMemory>
        ensures { IfOk result (λ spot. spot ≡ self.now) }
    {
        match self {
            Spot::Value { field, at } => Ok(Spot::Value {
                field: *field,
                at: *at,
            }),
            Spot::Mark { label, at } => Ok(Spot::Mark {
                label: *label,
                at: *at,
            }),
            Spot::Choice {
                constructor,
                inner,
                arguments,
            } => Ok(Spot::Choice {
                constructor: *constructor,
                inner: Skeleton {
                    entries: copy_spots(alloc, inner.entries.as_slice())?,
                },
                arguments: copy_arguments(alloc, arguments.as_slice())?,
            }),
        }
    }
}
