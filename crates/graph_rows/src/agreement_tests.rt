// Whether a decision graph finds what the plain program finds, which goes from arm to arm.
ghost use Rattle.std.specs.Prelude.{◌<◌, length};
ghost use Rattle.arm_matching.specs.Matcher.{IsReady};
ghost use Rattle.sled_model.specs.Specs.{IsSpec};

use crate::texts::{MATCH, SPEC, shelf};
use arm_matching::{ArmResult, Matcher, compile};
use decision_tree::Peek;
use sled_base::NoMemory;
use sled_model::{Match, Raw, Spec, Statement, first};
use std::alloc::Global;
use std::test::Fail;
use toolkit_cli::{described, read_decls, read_statement};

/// A window.
#[derive(Clone, Copy, Debug, PartialEq, Eq)]
enum Window {
    One(u8),
    Two([u8; 2]),
}

/// Whether both results are of one arm, of one length, and bind the same.
fn is_same_result(
    alloc: Global,
    spec: &Spec,
    window: &[u8],
    arm: usize,
    plain: Match,
    found: ArmResult<'_>,
) -> Result<bool, NoMemory>
    requires { IsSpec spec.now }
{
    let bound = found.skeleton.read(alloc, spec, window)?;
    let plain_bound = Raw {
        entries: plain.binds,
    };
    let same_binds = is_same_text(alloc, &plain_bound, &bound)?;
    Ok(arm == found.arm && plain.len == found.len as usize && same_binds)
}

/// Whether both are written alike, with each field, value and offset.
fn is_same_text(alloc: Global, one: &Raw, other: &Raw) -> Result<bool, NoMemory> {
    let first = format!(in alloc; "{one:?}")?;
    let second = format!(in alloc; "{other:?}")?;
    Ok(first == second)
}

/// Whether the graph finds on the window what the plain program finds.
fn agrees(
    alloc: Global,
    spec: &Spec,
    statement: &Statement,
    matcher: &Matcher<'_>,
    window: &[u8],
) -> Result<bool, NoMemory>
    requires ready { IsReady matcher.now }
    requires sound { IsSpec spec.now }
    requires short { length window.now < 256 }
{
    let plain = first(alloc, spec, statement, window)?;
    let mut peek = Peek::new(window);
    let Some(found) = matcher.first_result(&mut peek) else {
        return Ok(plain.is_none());
    };
    let Some((arm, result)) = plain else {
        return Ok(false);
    };
    is_same_result(alloc, spec, window, arm, result, found)
}

/// The first window of one byte on which the two differ, or else of two bytes.
fn first_difference(
    alloc: Global,
    spec: &Spec,
    statement: &Statement,
    matcher: &Matcher<'_>,
) -> Result<Option<Window>, NoMemory>
    requires ready { IsReady matcher.now }
    requires sound { IsSpec spec.now }
{
    for byte in 0..=u8::MAX {
        if !agrees(alloc, spec, statement, matcher, &[byte])? {
            return Ok(Some(Window::One(byte)));
        }
    }
    for number in 0..=u16::MAX {
        let bytes = number.to_be_bytes();
        if !agrees(alloc, spec, statement, matcher, &bytes)? {
            return Ok(Some(Window::Two(bytes)));
        }
    }
    Ok(None)
}

/// The first window on which the two differ, of the statement over the description.
fn difference(alloc: Global, spec: &[u8], matching: &[u8]) -> Result<Option<Window>, Fail> {
    let mut shelf = shelf(alloc, spec, matching)?;
    let decls = read_decls(alloc, &mut shelf, SPEC)?;
    let description = described(alloc, decls.as_slice())?;
    let statement = read_statement(alloc, &mut shelf, &description, MATCH)?;
    let matcher = compile(alloc, &description.spec, &statement)?;
    Ok(first_difference(alloc, &description.spec, &statement, &matcher)?)
}

#[test]
fn arms_without_constructors(rt: HostRuntime) -> Result<(), Fail> {
    let spec = b"fields of b (8) x 0:7 lo 0:3 hi 4:7";
    let matching = b"match
        case x = 1 | x = 2 | x = 250 => \"a\"
        case lo > 9 & hi < 4 => \"b\"
        case hi != 3 ; lo = 1 => \"c\"
        case x = 7 ; x = 8 | x = 9 => \"d\"";
    assert_eq!(rt; difference(rt.alloc(), spec, matching)?, None);
    Ok(())
}

#[test]
fn arms_that_apply_constructors(rt: HostRuntime) -> Result<(), Fail> {
    let spec = b"fields of b (8) x 0:7 lo 0:3 hi 4:7
        constructors
          one(lo) : t is hi = 1 & lo
          two(x) : t is hi = 2 ; x
          k(t, lo) is t ; hi = 5 & lo";
    let matching = b"match
        case k(one(a), _) & hi = 1 ... => \"a\"
        case k(two(v), l) => \"b\"
        case k(_, l) => \"c\"
        case hi = 2 => \"d\"";
    assert_eq!(rt; difference(rt.alloc(), spec, matching)?, None);
    Ok(())
}

#[test]
fn an_arm_for_each_instruction(rt: HostRuntime) -> Result<(), Fail> {
    let spec = b"fields of b (8) x 0:7 lo 0:3 hi 4:7
        constructors
          one(lo) : t is hi = 1 & lo
          k(t) is t ; hi = 5
          r() is hi = 6";
    assert_eq!(rt; difference(rt.alloc(), spec, b"match all")?, None);
    Ok(())
}
