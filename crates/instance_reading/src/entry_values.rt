// What the entries of a body hold, read from spots in a window: values of fields, offsets of labels, and choices.
ghost use Rattle.std.specs.Prelude.{◌≡◌, ◌++◌, ◌∷◌, [], filter, slice_get, option_copied, OnOk};
ghost use Rattle.std.specs.List.{filter_map};
ghost use Rattle.token_bits.specs.Tokens.{AreTokens};
ghost use Rattle.sled_model.specs.Instances.{first_or_zero};
ghost use Rattle.pattern_normal.specs.Skeletons.{read_spot, read_entries, is_choice_spot};
ghost use Rattle.instance_reading.specs.Entries.{values_read, place_among, chosen_spot, spot_label, AreSpotAddresses};

use pattern_normal::Spot;
use sled_base::NoMemory;
use std::alloc::Global;
use token_bits::Tokens;

/// Appends the value in the window, where the spot is one of a field.
fn push_value(
    found: &mut Vec<i64>,
    tokens: &Tokens,
    window: &[u8],
    spot: &Spot,
) -> Result<(), NoMemory>
    requires { AreTokens tokens.now }
    ensures { OnOk result (found.new.items ≡ found.old.items ++ values_read (read_spot tokens.now window.now spot.now ∷ [])) }
{
    match spot {
        Spot::Value { field, at } => {
            let value = tokens
                .field_value(*field, window, *at as usize)
                .unwrap_or(0);
            Ok(found.push(i64::from(value))?)
        }
        Spot::Mark { .. } => Ok(()),
        Spot::Choice { .. } => Ok(()),
    }
}

/// The values of fields, in order.
pub(crate) fn read_values(
    found: &mut Vec<i64>,
    tokens: &Tokens,
    window: &[u8],
    spots: &[Spot],
) -> Result<(), NoMemory>
    requires { AreTokens tokens.now }
    ensures { OnOk result (found.new.items ≡ values_read (read_entries tokens.now window.now spots.now)) }
{
    found.clear();
    for spot in spots {
        push_value(found, tokens, window, spot)?;
    }
    Ok(())
}

/// The offset of the label, or 0 where it does not stand.
fn offset_of(spots: &[Spot], label: usize) -> u8
    ensures { result ≡ first_or_zero (filter_map (spot_label label) spots.now) }
{
    for spot in spots {
        if let Spot::Mark { label: marked, at } = spot {
            if *marked as usize == label {
                return *at;
            }
        }
    }
    0
}

/// The addresses of the first labels, as many as `count`, in a match at the location.
pub(crate) fn read_addresses(
    found: &mut Vec<i64>,
    location: u32,
    spots: &[Spot],
    count: usize,
) -> Result<(), NoMemory>
    ensures { OnOk result (AreSpotAddresses location spots.now count found.new.items) }
{
    found.clear();
    for label in 0..count {
        found.push(i64::from(location) + i64::from(offset_of(spots, label)))?;
    }
    Ok(())
}

/// The choice of this number, among the spots that are choices.
fn nth_choice(spots: &[Spot], number: usize) -> Option<&Spot>
    ensures { option_copied result ≡ slice_get (filter is_choice_spot spots.now) number }
{
    let mut left = number;
    for spot in spots {
        if matches!(spot, Spot::Choice { .. }) {
            if left == 0 {
                return Some(spot);
            }
            left -= 1;
        }
    }
    None
}

/// Where the operand stands first.
fn place_of(standing: &[u32], operand: usize) -> Option<usize>
    ensures { result ≡ place_among standing.now operand }
{
    standing.iter().position(|k| *k as usize == operand)
}

/// The choice for an operand of a body in which these operands stand.
pub(crate) fn choice_for<'a>(
    standing: &[u32],
    spots: &'a [Spot],
    operand: usize,
) -> Option<&'a Spot>
    ensures { option_copied result ≡ chosen_spot standing.now spots.now operand }
{
    match place_of(standing, operand) {
        None => None,
        Some(place) => nth_choice(spots, place),
    }
}
