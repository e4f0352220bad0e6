// How large the graphs of machines are, and how often they ask.
ghost use Rattle.arm_matching.specs.Matcher.{IsReady};

use crate::texts::{MATCH, SPEC, shelf};
use arm_matching::{Matcher, compile};
use decision_tree::{Bits, Peek};
use machine_texts::{I486, MIPS, SPARC};
use std::alloc::Global;
use std::test::Fail;
use toolkit_cli::{described, read_decls, read_statement};

/// What a walk over instructions counts.
#[derive(Clone, Copy, Debug, PartialEq, Eq)]
struct Walk {
    instructions: u64,
    asks: u64,
}

/// A graph's figures.
#[derive(Clone, Copy, Debug, PartialEq, Eq)]
struct Figures {
    cases: usize,
    nodes: usize,
    walk: Walk,
}

/// How many instructions stand in the image, one behind another, and how often they ask in all.
fn walked(matcher: &Matcher<'_>, image: &[u8]) -> Result<Walk, Fail>
    requires { IsReady matcher.now }
{
    let mut walk = Walk {
        instructions: 0,
        asks: 0,
    };
    let mut left = image;
    for _ in 0..image.len() {
        if left.is_empty() {
            break;
        }
        let mut window = Peek::new(left);
        let Some(found) = matcher.first_result(&mut window) else {
            return Err(Fail::new("no instruction stands there"));
        };
        walk.instructions = walk.instructions.saturating_add(1);
        walk.asks = walk.asks.saturating_add(window.asked());
        left = match left.get(found.len as usize..) {
            Some(rest) => rest,
            None => return Err(Fail::new("an instruction is cut off")),
        };
    }
    Ok(walk)
}

/// The figures of the graph of all instructions of the machine, over the image.
fn measured(alloc: Global, machine: &str, image: &[u8]) -> Result<Figures, Fail> {
    let mut shelf = shelf(alloc, machine.as_bytes(), b"match all")?;
    let decls = read_decls(alloc, &mut shelf, SPEC)?;
    let description = described(alloc, decls.as_slice())?;
    let statement = read_statement(alloc, &mut shelf, &description, MATCH)?;
    let matcher = compile(alloc, &description.spec, &statement)?;
    let walk = walked(&matcher, image)?;
    let tree = matcher.tree();
    Ok(Figures {
        cases: tree.cases().len(),
        nodes: tree.len(),
        walk,
    })
}

#[test]
fn machines(rt: HostRuntime) -> Result<(), Fail> {
    // A machine, instructions of it one behind another; how many cases and nodes, how many instructions, and how many asks.
    let rows: [(&str, &[u8], usize, usize, u64, u64); 3] = [
        (
            SPARC,
            b"\x80\x92\x40\0\x04\x80\0\x07\x94\x10\x20\0\xd6\x02\x20\0\x90\x02\x20\x04\x92\x82\x7f\xff\x14\xbf\xff\xfd\x94\x02\x80\x0b\x81\xc3\xe0\x08\x90\x12\x80\0",
            129,
            346,
            10,
            48,
        ),
        (
            MIPS,
            b"\x27\xbd\xff\xe0\x03\xe0\0\x08\x14\x40\xff\xff",
            58,
            92,
            3,
            6,
        ),
        (I486, b"\x55\x89\xe5\x8b\x45\x08\x5d\xc3", 4798, 9888, 5, 9),
    ];
    for (machine, image, cases, nodes, instructions, asks) in rows {
        let found = measured(rt.alloc(), machine, image)?;
        let walk = Walk { instructions, asks };
        assert_eq!(rt; found, Figures { cases, nodes, walk });
    }
    Ok(())
}
