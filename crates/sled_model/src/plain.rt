// The results of a pattern by the definition, step for step.
ghost use Rattle.std.specs.Prelude.{◌≡◌, ◌+◌, ◌^◌, ◌<◌, ◌≤◌, ◌≢◌, ◌++◌, length, map, filter, All, IfOk, OnOk, IfSome, OnSome};
ghost use Rattle.std.specs.List.{flat_map, fold};
ghost use Rattle.token_bits.specs.Tokens.{AreTokens};
ghost use Rattle.sled_model.specs.PatternContexts.{context_in, IsPatternContext};
ghost use Rattle.sled_model.specs.Results.{results as results_of, fold_meanings, chain, both, either, chain_match, agrees as agrees_with, both_match, one_match as one_match_of, class_results as class_results_of, limit_results as limit_results_of, bind_results as bind_results_of, label_match, loose_match};

use crate::choices::{application_results, operand_results};
use crate::context::PatternContext;
use crate::copies::copy_entries;
use crate::{Match, Pattern, RawEntry, Relation};
use sled_base::NoMemory;
use sqlite_items::Items;
use std::alloc::Global;
use token_bits::{ClassId, FieldId, Tokens};

fn agrees(a: &Match, b: &Match) -> bool
    ensures { result ≡ agrees_with a.now b.now }
{
    match (a.loose, b.loose) {
        (true, true) => true,
        (true, false) => a.len <= b.len,
        (false, true) => b.len <= a.len,
        (false, false) => a.len == b.len,
    }
}

fn one_match(alloc: Global, binds: Items<RawEntry>, len: usize) -> Result<Items<Match>, NoMemory>
    ensures { IfOk result (λ found. found ≡ one_match_of binds len) }
{
    let mut found = Items::new(alloc);
    found.push(Match {
        binds,
        len,
        loose: false,
    })?;
    Ok(found)
}

fn class_results(
    alloc: Global,
    tokens: &Tokens,
    class: ClassId,
    window: &[u8],
    at: usize,
) -> Result<Items<Match>, NoMemory>
    requires { AreTokens tokens.now }
    ensures value { IfOk result (λ found. found ≡ class_results_of tokens.now class window.now at) }
    ensures within { IfOk result (All (λ a. at + a.len ≤ length window.now)) }
{
    let Some(class) = tokens.class(class) else {
        return Ok(Items::new(alloc));
    };
    match class.token_at(window, at) {
        None => Ok(Items::new(alloc)),
        Some(_) => one_match(alloc, Items::new(alloc), class.byte_count()),
    }
}

fn limit_results(
    alloc: Global,
    tokens: &Tokens,
    field: FieldId,
    relation: Relation,
    limit: u32,
    window: &[u8],
    at: usize,
) -> Result<Items<Match>, NoMemory>
    requires { AreTokens tokens.now }
    ensures value { IfOk result (λ found. found ≡ limit_results_of tokens.now field relation limit window.now at) }
    ensures within { IfOk result (All (λ a. at + a.len ≤ length window.now)) }
{
    match tokens.field_value(field, window, at) {
        Some(value) if relation.holds(value, limit) => {
            one_match(alloc, Items::new(alloc), tokens.token_len(field))
        }
        _ => Ok(Items::new(alloc)),
    }
}

fn bind_results(
    alloc: Global,
    tokens: &Tokens,
    field: FieldId,
    window: &[u8],
    at: usize,
) -> Result<Items<Match>, NoMemory>
    requires tokens { AreTokens tokens.now }
    requires at { at < 256 }
    ensures value { IfOk result (λ found. found ≡ bind_results_of tokens.now field window.now at) }
    ensures within { IfOk result (All (λ a. at + a.len ≤ length window.now)) }
{
    let Some(value) = tokens.field_value(field, window, at) else {
        return Ok(Items::new(alloc));
    };
    let mut binds = Items::new(alloc);
    binds.push(RawEntry::Value {
        field,
        value,
        at: at as u8,
    })?;
    one_match(alloc, binds, tokens.token_len(field))
}

/// A copy of the bindings of both, in order.
fn both_binds(alloc: Global, a: &Match, b: &Match) -> Result<Items<RawEntry>, NoMemory>
    ensures { IfOk result (λ binds. binds ≡ a.now.binds ++ b.now.binds) }
{
    let mut binds = copy_entries(alloc, a.binds.as_slice())?;
    binds.append(copy_entries(alloc, b.binds.as_slice())?)?;
    Ok(binds)
}

fn labelled(alloc: Global, label: u32, at: usize, inner: &[Match]) -> Result<Items<Match>, NoMemory>
    requires { at < 256 }
    ensures { IfOk result (λ found. found ≡ map (label_match label at) inner.now) }
{
    let mut found = Items::new(alloc);
    for a in inner {
        let mut binds = Items::new(alloc);
        binds.push(RawEntry::Mark {
            label,
            at: at as u8,
        })?;
        binds.append(copy_entries(alloc, a.binds.as_slice())?)?;
        found.push(Match {
            binds,
            len: a.len,
            loose: a.loose,
        })?;
    }
    Ok(found)
}

fn loosened(alloc: Global, inner: &[Match]) -> Result<Items<Match>, NoMemory>
    ensures { IfOk result (λ found. found ≡ map loose_match inner.now) }
{
    let mut found = Items::new(alloc);
    for a in inner {
        found.push(Match {
            binds: copy_entries(alloc, a.binds.as_slice())?,
            len: a.len,
            loose: true,
        })?;
    }
    Ok(found)
}

/// Appends a, joined with each of the seconds.
fn push_chained(
    alloc: Global,
    found: &mut Items<Match>,
    a: &Match,
    seconds: &[Match],
) -> Result<(), NoMemory>
    requires { All (λ b. a.now.len + b.len < 2 ^ 63) seconds.now }
    ensures { OnOk result (found.new ≡ found.old ++ map (chain_match a.now) seconds.now) }
{
    for b in seconds {
        found.push(Match {
            binds: both_binds(alloc, a, b)?,
            len: a.len + b.len,
            loose: b.loose,
        })?;
    }
    Ok(())
}

/// Appends a, met with each of the seconds that agrees.
fn push_both(
    alloc: Global,
    found: &mut Items<Match>,
    a: &Match,
    seconds: &[Match],
) -> Result<(), NoMemory>
    ensures { OnOk result (found.new ≡ found.old ++ map (both_match a.now) (filter (agrees_with a.now) seconds.now)) }
{
    for b in seconds {
        if agrees(a, b) {
            found.push(Match {
                binds: both_binds(alloc, a, b)?,
                len: a.len.max(b.len),
                loose: a.loose && b.loose,
            })?;
        }
    }
    Ok(())
}

/// Each of the firsts, met with each result of the part that agrees with it.
fn all_both(alloc: Global, firsts: &[Match], seconds: &[Match]) -> Result<Items<Match>, NoMemory>
    ensures { IfOk result (λ found. found ≡ flat_map (λ a. map (both_match a) (filter (agrees_with a) seconds.now)) firsts.now) }
{
    let mut found = Items::new(alloc);
    for a in firsts {
        push_both(alloc, &mut found, a, seconds)?;
    }
    Ok(found)
}

/// Each of the firsts, joined with each result of the part just after it.
#[cycle(results)]
fn all_chained(
    alloc: Global,
    near: &PatternContext<'_>,
    firsts: &[Match],
    part: &Pattern,
    at: usize,
) -> Result<Items<Match>, NoMemory>
    requires near { IsPatternContext near.now }
    requires firsts { All (λ a. at + a.len ≤ length near.now.window.now) firsts.now }
    ensures value { IfOk result (λ found. found ≡ flat_map (λ a. map (chain_match a) (results_of (context_in near.now) part.now near.now.window.now (at + a.len))) firsts.now) }
    ensures within { IfOk result (All (λ a. at + a.len ≤ length near.now.window.now)) }
{
    let mut found = Items::new(alloc);
    for a in firsts {
        let seconds = results_among(alloc, near, part, at + a.len)?;
        push_chained(alloc, &mut found, a, seconds.as_slice())?;
    }
    Ok(found)
}

#[cycle(results)]
fn chain_results(
    alloc: Global,
    near: &PatternContext<'_>,
    parts: &[Pattern],
    at: usize,
) -> Result<Items<Match>, NoMemory>
    requires near { IsPatternContext near.now }
    requires at { at ≤ length near.now.window.now }
    ensures value { IfOk result (λ found. found ≡ fold_meanings chain (map (results_of (context_in near.now)) parts.now) near.now.window.now at) }
    ensures within { IfOk result (All (λ a. at + a.len ≤ length near.now.window.now)) }
{
    let Some((first, rest)) = parts.split_first() else {
        return Ok(Items::new(alloc));
    };
    let mut found = results_among(alloc, near, first, at)?;
    for part in rest {
        found = all_chained(alloc, near, found.as_slice(), part, at)?;
    }
    Ok(found)
}

#[cycle(results)]
fn both_results(
    alloc: Global,
    near: &PatternContext<'_>,
    parts: &[Pattern],
    at: usize,
) -> Result<Items<Match>, NoMemory>
    requires near { IsPatternContext near.now }
    requires at { at ≤ length near.now.window.now }
    ensures value { IfOk result (λ found. found ≡ fold_meanings both (map (results_of (context_in near.now)) parts.now) near.now.window.now at) }
    ensures within { IfOk result (All (λ a. at + a.len ≤ length near.now.window.now)) }
{
    let Some((first, rest)) = parts.split_first() else {
        return Ok(Items::new(alloc));
    };
    let mut found = results_among(alloc, near, first, at)?;
    for part in rest {
        let seconds = results_among(alloc, near, part, at)?;
        found = all_both(alloc, found.as_slice(), seconds.as_slice())?;
    }
    Ok(found)
}

#[cycle(results)]
fn either_results(
    alloc: Global,
    near: &PatternContext<'_>,
    parts: &[Pattern],
    at: usize,
) -> Result<Items<Match>, NoMemory>
    requires near { IsPatternContext near.now }
    requires at { at ≤ length near.now.window.now }
    ensures value { IfOk result (λ found. found ≡ fold_meanings either (map (results_of (context_in near.now)) parts.now) near.now.window.now at) }
    ensures within { IfOk result (All (λ a. at + a.len ≤ length near.now.window.now)) }
{
    let Some((first, rest)) = parts.split_first() else {
        return Ok(Items::new(alloc));
    };
    let mut found = results_among(alloc, near, first, at)?;
    for part in rest {
        found.append(results_among(alloc, near, part, at)?)?;
    }
    Ok(found)
}

/// The results of a pattern at the offset `at`, in order.
#[tactic(auto, using(crate::proofs::AdmittedLaws::all_results_laws))]
#[cycle(results)]
pub(crate) fn results_among(
    alloc: Global,
    near: &PatternContext<'_>,
    pattern: &Pattern,
    at: usize,
) -> Result<Items<Match>, NoMemory>
    requires near { IsPatternContext near.now }
    requires at { at ≤ length near.now.window.now }
    ensures value { IfOk result (λ found. found ≡ results_of (context_in near.now) pattern.now near.now.window.now at) }
    ensures within { IfOk result (All (λ a. at + a.len ≤ length near.now.window.now)) }
{
    match pattern {
        Pattern::Token(class) => class_results(alloc, near.tokens, *class, near.window, at),
        Pattern::Limit {
            field,
            relation,
            value,
        } => limit_results(
            alloc,
            near.tokens,
            *field,
            *relation,
            *value,
            near.window,
            at,
        ),
        Pattern::Bind(field) => bind_results(alloc, near.tokens, *field, near.window, at),
        Pattern::Operand(k) => operand_results(alloc, near, *k, at),
        Pattern::Label(label, inner) => {
            let found = results_among(alloc, near, inner.get(), at)?;
            labelled(alloc, *label, at, found.as_slice())
        }
        Pattern::Both(parts) => both_results(alloc, near, parts.as_slice(), at),
        Pattern::Either(parts) => either_results(alloc, near, parts.as_slice(), at),
        Pattern::Chain(parts) => chain_results(alloc, near, parts.as_slice(), at),
        Pattern::Loose(inner) => {
            let found = results_among(alloc, near, inner.get(), at)?;
            loosened(alloc, found.as_slice())
        }
        Pattern::Apply {
            constructor,
            arguments,
        } => application_results(alloc, near, *constructor, arguments.as_slice(), at),
        Pattern::Empty => one_match(alloc, Items::new(alloc), 0),
    }
}
