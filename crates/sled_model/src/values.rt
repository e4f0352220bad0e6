// The values of an arm's names in a result.
ghost use Rattle.std.specs.Prelude.{◌≡◌, ◌≤◌, ◌^◌, slice_get};
ghost use Rattle.std.specs.List.{filter_map};
ghost use Rattle.sled_model.specs.First.{name_value as name_value_of, entry_value as entry_value_of, is_named as is_named_of};

use crate::{Arm, RawEntry, Spec};
use token_bits::FieldId;

/// The value that a result at the location gives to the arm's name of this number: that of the field which is named so, or the address
/// of the label of this number. None where it gives none, or there is no such name.
pub fn name_value(spec: &Spec, arm: &Arm, location: u64, binds: &[RawEntry], k: u32) -> Option<u64>
    requires { location ≤ 2 ^ 32 }
    ensures { result ≡ name_value_of spec.now arm.now location binds.now k }
{
    first_value(
        spec,
        arm.names.get(k as usize)?.as_slice(),
        location,
        binds,
        k,
    )
}

/// The first value that an entry gives to the name of this number, which is spelled so.
fn first_value(spec: &Spec, name: &[u8], location: u64, binds: &[RawEntry], k: u32) -> Option<u64>
    requires { location ≤ 2 ^ 32 }
    ensures { result ≡ slice_get (filter_map (entry_value_of spec.now name.now location k) binds.now) 0 }
{
    for entry in binds {
        if let Some(value) = entry_value(spec, name, location, k, entry) {
            return Some(value);
        }
    }
    None
}

/// The value that one entry gives to the name of this number, which is spelled so.
fn entry_value(spec: &Spec, name: &[u8], location: u64, k: u32, entry: &RawEntry) -> Option<u64>
    requires { location ≤ 2 ^ 32 }
    ensures { result ≡ entry_value_of spec.now name.now location k entry.now }
{
    match entry {
        RawEntry::Value { field, value, .. } if is_named(spec, *field, name) => {
            Some(u64::from(*value))
        }
        RawEntry::Mark { label, at } if *label == k => Some(location + u64::from(*at)),
        _ => None,
    }
}

/// Whether the field's name is spelled so.
pub fn is_named(spec: &Spec, field: FieldId, name: &[u8]) -> bool
    ensures { result ≡ is_named_of spec.now field name.now }
{
    match spec.field_name(field) {
        Some(field_name) => name == field_name,
        None => false,
    }
}
