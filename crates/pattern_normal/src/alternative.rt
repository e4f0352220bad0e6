// Alternatives of a pattern at a place.
ghost use Rattle.std.specs.Prelude.{◌≡◌, ◌+◌, ◌*◌, ◌<◌, ◌≤◌, ◌++◌, ◌∷◌, [], List, ℕ, length, map, max, All, IfOk, OnOk, IfSome};
ghost use Rattle.std.specs.Option.{option_to_list, option_map_or};
ghost use Rattle.token_bits.specs.declared.tokens.Tokens.{Tokens};
ghost use Rattle.sled_model.specs.Results.{agrees as agrees_with};
ghost use Rattle.pattern_normal.specs.Alternatives.{seen, shown, both_row, chain_row, AreBetween, IsBetween, ArePairs, loose_alternative, label_alternative, plain_alternative, choice_alternative};

use crate::skeleton::copy_spots;
use crate::{Skeleton, Spot};
use bit_cases::ByteCase;
use sled_base::NoMemory;
use sled_model::{Argument, ConstructorId, copy_arguments};
use sqlite_items::Items;
use std::alloc::Global;

/// The windows that have a result at some place, and what it binds there. The result ends where the bits do.
#[derive(Drop)]
pub(crate) struct Alternative {
    pub(crate) bits: ByteCase,
    pub(crate) loose: bool,
    pub(crate) spots: Items<Spot>,
}

impl Alternative {
    fn agrees(&self, other: &Alternative) -> bool
        ensures { (tokens : Tokens) (window : List ℕ) → result ≡ agrees_with (seen tokens window self.now) (seen tokens window other.now) }
    {
        match (self.loose, other.loose) {
            (true, true) => true,
            (true, false) => self.bits.len <= other.bits.len,
            (false, true) => other.bits.len <= self.bits.len,
            (false, false) => self.bits.len == other.bits.len,
        }
    }

    fn both_spots(&self, alloc: Global, other: &Alternative) -> Result<Items<Spot>, NoMemory>
        ensures { IfOk result (λ spots. spots ≡ self.now.spots ++ other.now.spots) }
    {
        let mut spots = copy_spots(alloc, self.spots.as_slice())?;
        spots.append(copy_spots(alloc, other.spots.as_slice())?)?;
        Ok(spots)
    }

    /// Both at one place, if they agree.
    fn meet(&self, alloc: Global, other: &Alternative) -> Result<Option<Alternative>, NoMemory>
        ensures met { IfOk result (λ o. (tokens : Tokens) (window : List ℕ) → shown tokens window (option_to_list o) ≡ both_row tokens window self.now (other.now ∷ [])) }
        ensures len { IfOk result (λ o. IfSome o (λ a. a.bits.len ≡ max self.now.bits.len other.now.bits.len)) }
    {
        if !self.agrees(other) {
            return Ok(None);
        }
        let Some(bits) = self.bits.join(&other.bits) else {
            return Ok(None);
        };
        Ok(Some(Alternative {
            bits,
            loose: self.loose && other.loose,
            spots: self.both_spots(alloc, other)?,
        }))
    }

    /// This, and then the other, which begins where this ends.
    fn follow(&self, alloc: Global, other: &Alternative) -> Result<Option<Alternative>, NoMemory>
        requires { self.now.bits.len ≤ other.now.bits.len }
        ensures joined { IfOk result (λ o. (tokens : Tokens) (window : List ℕ) → shown tokens window (option_to_list o) ≡ chain_row tokens window self.now (other.now ∷ [])) }
        ensures len { IfOk result (λ o. IfSome o (λ a. a.bits.len ≡ other.now.bits.len)) }
    {
        let Some(bits) = self.bits.join(&other.bits) else {
            return Ok(None);
        };
        Ok(Some(Alternative {
            bits,
            loose: other.loose,
            spots: self.both_spots(alloc, other)?,
        }))
    }
}

fn keep(
    alternatives: &mut Items<Alternative>,
    alternative: Option<Alternative>,
) -> Result<(), NoMemory>
    ensures { OnOk result (alternatives.new ≡ alternatives.old ++ option_to_list alternative) }
{
    if let Some(alternative) = alternative {
        alternatives.push(alternative)?;
    }
    Ok(())
}

/// Adds both at one place, for each of the others that agrees.
fn push_met(
    alloc: Global,
    pairs: &mut Items<Alternative>,
    first: &Alternative,
    others: &[Alternative],
) -> Result<(), NoMemory>
    ensures shown { OnOk result ((tokens : Tokens) (window : List ℕ) → shown tokens window pairs.new ≡ shown tokens window pairs.old ++ both_row tokens window first.now others.now) }
    ensures ends { OnOk result ((least most : ℕ) → IsBetween least most first.now → AreBetween least most others.now → AreBetween least most pairs.old → AreBetween least most pairs.new) }
    ensures count { OnOk result (length pairs.new ≤ length pairs.old + length others.now) }
{
    for other in others {
        let both = first.meet(alloc, other)?;
        keep(pairs, both)?;
    }
    Ok(())
}

/// Adds each of the others, which begin where the first ends, behind the first.
pub(crate) fn push_following(
    alloc: Global,
    pairs: &mut Items<Alternative>,
    first: &Alternative,
    others: &[Alternative],
) -> Result<(), NoMemory>
    requires { All (λ b. first.now.bits.len ≤ b.bits.len) others.now }
    ensures shown { OnOk result ((tokens : Tokens) (window : List ℕ) → shown tokens window pairs.new ≡ shown tokens window pairs.old ++ chain_row tokens window first.now others.now) }
    ensures ends { OnOk result ((least most : ℕ) → AreBetween least most others.now → AreBetween least most pairs.old → AreBetween least most pairs.new) }
    ensures count { OnOk result (length pairs.new ≤ length pairs.old + length others.now) }
{
    for other in others {
        let both = first.follow(alloc, other)?;
        keep(pairs, both)?;
    }
    Ok(())
}

/// Each of the firsts with each of the seconds that agrees.
pub(crate) fn all_met(
    alloc: Global,
    firsts: &[Alternative],
    seconds: &[Alternative],
) -> Result<Items<Alternative>, NoMemory>
    ensures { IfOk result (ArePairs firsts.now seconds.now) }
{
    let mut pairs = Items::new(alloc);
    for first in firsts {
        push_met(alloc, &mut pairs, first, seconds)?;
    }
    Ok(pairs)
}

/// The alternatives, with the label at the offset in front of each.
pub(crate) fn labelled(
    alloc: Global,
    label: u32,
    at: u8,
    alternatives: &[Alternative],
) -> Result<Items<Alternative>, NoMemory>
    ensures { IfOk result (λ marked. marked ≡ map (label_alternative label at) alternatives.now) }
{
    let mut marked = Items::new(alloc);
    for alternative in alternatives {
        let mut spots = Items::new(alloc);
        spots.push(Spot::Mark { label, at })?;
        spots.append(copy_spots(alloc, alternative.spots.as_slice())?)?;
        marked.push(Alternative {
            bits: alternative.bits,
            loose: alternative.loose,
            spots,
        })?;
    }
    Ok(marked)
}

/// The alternatives, each made loose.
pub(crate) fn loosened(
    alloc: Global,
    alternatives: &[Alternative],
) -> Result<Items<Alternative>, NoMemory>
    ensures { IfOk result (λ loose. loose ≡ map loose_alternative alternatives.now) }
{
    let mut loose = Items::new(alloc);
    for alternative in alternatives {
        loose.push(Alternative {
            bits: alternative.bits,
            loose: true,
            spots: copy_spots(alloc, alternative.spots.as_slice())?,
        })?;
    }
    Ok(loose)
}

/// An alternative for each of the conditions, in which nothing is bound.
pub(crate) fn plain_alternatives(
    alloc: Global,
    conditions: &[ByteCase],
) -> Result<Items<Alternative>, NoMemory>
    ensures { IfOk result (λ plain. plain ≡ map plain_alternative conditions.now) }
{
    let mut plain = Items::new(alloc);
    for bits in conditions {
        plain.push(Alternative {
            bits: *bits,
            loose: false,
            spots: Items::new(alloc),
        })?;
    }
    Ok(plain)
}

/// The alternative, as the choice of the constructor of this number by an application with these arguments.
pub(crate) fn as_choice(
    alloc: Global,
    k: u32,
    arguments: &[Argument],
    alternative: &Alternative,
) -> Result<Alternative, NoMemory>
    ensures { IfOk result (λ a. a ≡ choice_alternative k arguments.now alternative.now) }
{
    let mut spots = Items::new(alloc);
    spots.push(Spot::Choice {
        constructor: ConstructorId(k),
        inner: Skeleton {
            entries: copy_spots(alloc, alternative.spots.as_slice())?,
        },
        arguments: copy_arguments(alloc, arguments)?,
    })?;
    Ok(Alternative {
        bits: alternative.bits,
        loose: alternative.loose,
        spots,
    })
}

/// The alternatives, each as the choice of the constructor of this number by an application with these arguments.
pub(crate) fn chosen(
    alloc: Global,
    k: u32,
    arguments: &[Argument],
    alternatives: &[Alternative],
) -> Result<Items<Alternative>, NoMemory>
    ensures { IfOk result (λ choices. choices ≡ map (choice_alternative k arguments.now) alternatives.now) }
{
    let mut choices = Items::new(alloc);
    for alternative in alternatives {
        choices.push(as_choice(alloc, k, arguments, alternative)?)?;
    }
    Ok(choices)
}
