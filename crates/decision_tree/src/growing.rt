//! The building of a graph.
ghost use Rattle.std.specs.Prelude.{◌⊎◌, slice_index, bit_and, ◌↔◌, AllPairs, ◌≢◌, All, IfSome, ◌≡◌, ◌+◌, ◌-◌, ◌^◌, ◌<◌, ◌≤◌, List, ℕ, length, slice_get, Some, None, IsTrue, IfOk, OnOk, max, set};
ghost use Rattle.std.specs.List.{range_with_len};
ghost use Rattle.std.specs.Option.{option_map};
ghost use Rattle.decision_tree.specs.Graph.{Reaches, IsGraph, IsFormed, walk_at, first_met, next, answer_of};
ghost use Rattle.std.specs.Int.{bit_at};
ghost use Rattle.decision_tree.specs.Paths.{AreRuled};
ghost use Rattle.decision_tree.specs.Trees.{walk};
ghost use Rattle.decision_tree.specs.Building.{IsUntested, AreUntested, FitsShort, Fits, IsLeafAt, IsOpenTest, place, IsMade, IsBuilt, AreKids, IsSure, IsSureAt, AsksOpen, block, stays, kept, tested_more};

use crate::arena::Arena;
use crate::graph::Tree;
use crate::kids::KidList;
use crate::node::{CaseNo, Node, NodeNo};
use bit_cases::ByteCase;
use sled_base::NoMemory;
use std::alloc::Global;

/// A run of bits of one byte.
#[derive(Clone, Copy)]
pub struct Run {
    byte: u8,
    shift: u8,
    width: u8,
    ghost in_window: { byte < 32 },
    ghost some: { 0 < width },
    ghost in_byte: { shift + width ≤ 8 },
}

fn power(n: u8) -> u16
    requires { n ≤ 8 }
    ensures { result ≡ 2 ^ n }
{
    1u16 << n
}

impl Run {
    /// The run as a mask.
    #[tactic(auto, using(crate::proofs::Splits::block_fits, crate::proofs::Splits::power_grows))]
    fn block(&self) -> u8
        ensures { result ≡ block self.now.shift self.now.width }
    {
        (power(self.width + self.shift) - power(self.shift)) as u8
    }
}

/// Adds a node.
fn add(cases: &[ByteCase], nodes: &mut Arena, node: Node) -> Result<NodeNo, NoMemory>
    requires graph { IsGraph (length cases.now) nodes.old }
    requires formed { IsFormed (length cases.now) (length nodes.old) node }
    ensures { IfOk result (λ n. IsMade cases.now nodes.old nodes.new n.0 node) }
{
    let _cases = cases.len();
    let number = nodes.add(node)?;
    Ok(number)
}

/// Whether all that the case asks for was tested.
fn is_sure(case: &ByteCase, tested: &[u8; 32], least: u8) -> bool
    ensures { IsTrue result ↔ IsSure tested.now least case.now }
{
    if least < case.len {
        return false;
    }
    for k in 0..32 {
        if case.mask[k] & tested[k] != case.mask[k] {
            return false;
        }
    }
    true
}

/// How many cases stand before the first that is sure.
fn open_front(cases: &[ByteCase], left: &[u32], tested: &[u8; 32], least: u8) -> usize
    requires { All (λ k. k < length cases.now) left.now }
    ensures within { result ≤ length left.now }
    ensures sure { (k : ℕ) → slice_get left.now result ≡ Some k → IsSureAt cases.now tested.now least k }
{
    for i in 0..left.len() {
        if is_sure(&cases[left[i] as usize], tested, least) {
            return i;
        }
    }
    left.len()
}

/// Checks the cases in turn.
fn chain(
    cases: &[ByteCase],
    nodes: &mut Arena,
    left: &[u32],
    tested: &[u8; 32],
    least: u8,
    room: u8,
    front: usize,
) -> Result<NodeNo, NoMemory>
    requires graph { IsGraph (length cases.now) nodes.old }
    requires left { All (λ k. k < length cases.now) left.now }
    requires within { front ≤ length left.now }
    requires sure { (k : ℕ) → slice_get left.now front ≡ Some k → IsSureAt cases.now tested.now least k }
    requires spent { 0 < front → room ≡ 0 }
    ensures { IfOk result (λ n. IsBuilt cases.now nodes.old nodes.new n.0 left.now room tested.now least (Fits cases.now left.now tested.now least)) }
{
    let _spent = (tested[0], least, room);
    let mut i = front;
    let answer = answer_at(left, i);
    let mut at = add(cases, nodes, Node::Leaf(answer))?;
    while i > 0 {
        i -= 1;
        let case = CaseNo(left[i]);
        let yes = add(cases, nodes, Node::Leaf(Some(case)))?;
        at = add(cases, nodes, Node::Check { case, yes, no: at })?;
    }
    Ok(at)
}

/// The case at that place of the list.
fn answer_at(left: &[u32], at: usize) -> Option<CaseNo>
    ensures { result ≡ option_map (λ k. record { 0 = k }) (slice_get left.now at) }
{
    match left.get(at) {
        None => None,
        Some(number) => Some(CaseNo(*number)),
    }
}

/// Whether the case is left behind the link.
#[tactic(auto, using(crate::proofs::Splits::value_fits))]
fn stays(case: &ByteCase, run: Run, link: Option<u8>) -> bool
    ensures { result ≡ stays run.byte run.shift run.width link case.now }
{
    let byte = run.byte as usize;
    match link {
        None => case.len <= run.byte,
        Some(value) => (case.value[byte] & run.block()) as u16
            == (value as u16 * power(run.shift)) & case.mask[byte] as u16,
    }
}

/// The cases that are left behind the link.
fn left_behind(
    alloc: Global,
    cases: &[ByteCase],
    left: &[u32],
    run: Run,
    link: Option<u8>,
) -> Result<Vec<u32>, NoMemory>
    requires { All (λ k. k < length cases.now) left.now }
    ensures { IfOk result (λ v. v.items ≡ kept cases.now run.byte run.shift run.width link left.now) }
{
    let mut behind = Vec::new(alloc);
    for number in left {
        if stays(&cases[*number as usize], run, link) {
            behind.push(*number)?;
        }
    }
    Ok(behind)
}

/// The highest run of bits that were not tested in the first byte that has such bits of the case, else bit 0 of its last byte.
fn choose(case: &ByteCase, tested: &[u8; 32], least: u8, room: u8) -> Run
    requires room { 0 < room }
    requires unsure { IsSure tested.now least case.now → ⊥ }
    requires untested { IsUntested tested.now least case.now }
    ensures room { result.width ≤ room }
    ensures within { result.byte < case.now.len }
    ensures untested { bit_and (slice_index tested.now result.byte) (block result.shift result.width) ≡ 0 }
    ensures asks { AsksOpen tested.now case.now result.byte result.shift result.width }
{
    let _least = least;
    for byte in 0..case.len {
        let free = free_bits(case.mask[byte as usize], tested[byte as usize]);
        if free != 0 {
            let highest = highest_bit(free);
            let shift = run_start(free, highest, room);
            return Run {
                byte,
                shift,
                width: highest + 1 - shift,
            };
        }
    }
    Run {
        byte: case.len.saturating_sub(1),
        shift: 0,
        width: 1,
    }
}

/// The bits of the mask that were not tested.
fn free_bits(mask: u8, tested: u8) -> u8
    ensures bits { result ≡ bit_and mask (255 - tested) }
    ensures none { result ≡ 0 → bit_and mask tested ≡ mask }
{
    mask & !tested
}

/// The highest bit that is one.
fn highest_bit(free: u8) -> u8
    requires { 0 < free }
    ensures within { result < 8 }
    ensures one { bit_at free result ≡ 1 }
{
    7 - free.leading_zeros() as u8
}

/// Where the ones begin that end with bit `highest`, of which at most `room` are taken.
fn run_start(free: u8, highest: u8, room: u8) -> u8
    requires some { 0 < room }
    requires within { highest < 8 }
    requires one { bit_at free highest ≡ 1 }
    ensures within { result ≤ highest }
    ensures room { highest + 1 ≤ result + room }
    ensures ones { (k : ℕ) → result ≤ k → k ≤ highest → bit_at free k ≡ 1 }
{
    let mut start = highest;
    while start > 0 && highest - start + 1 < room && free >> (start - 1) & 1 == 1 {
        start -= 1;
    }
    start
}

/// The graph of the cases that are left, after these bits, with so many bits to test.
#[cycle(grow)]
fn grow(
    alloc: Global,
    cases: &[ByteCase],
    nodes: &mut Arena,
    left: &[u32],
    tested: &[u8; 32],
    least: u8,
    room: u8,
) -> Result<NodeNo, NoMemory>
    requires graph { IsGraph (length cases.now) nodes.old }
    requires left { All (λ k. k < length cases.now) left.now }
    requires tested { length tested.now ≡ 32 }
    requires untested { AreUntested cases.now left.now tested.now least }
    ensures { IfOk result (λ n. IsBuilt cases.now nodes.old nodes.new n.0 left.now room tested.now least (Fits cases.now left.now tested.now least)) }
{
    if room == 0 {
        let front = open_front(cases, left, tested, least);
        return chain(cases, nodes, left, tested, least, room, front);
    }
    let Some(first) = left.first() else {
        return chain(cases, nodes, left, tested, least, room, 0);
    };
    let case = &cases[*first as usize];
    if is_sure(case, tested, least) {
        return chain(cases, nodes, left, tested, least, room, 0);
    }
    let run = choose(case, tested, least, room);
    grow_test(alloc, cases, nodes, left, tested, least, room, run)
}

/// The test of the run, with the graphs behind its links.
#[cycle(grow)]
fn grow_test(
    alloc: Global,
    cases: &[ByteCase],
    nodes: &mut Arena,
    left: &[u32],
    tested: &[u8; 32],
    least: u8,
    room: u8,
    run: Run,
) -> Result<NodeNo, NoMemory>
    requires graph { IsGraph (length cases.now) nodes.old }
    requires left { All (λ k. k < length cases.now) left.now }
    requires tested { length tested.now ≡ 32 }
    requires untested { AreUntested cases.now left.now tested.now least }
    requires asks { IsOpenTest cases.now (place room tested.now left.now least) run.byte run.shift run.width }
    ensures { IfOk result (λ n. IsBuilt cases.now nodes.old nodes.new n.0 left.now room tested.now least (Fits cases.now left.now tested.now least)) }
{
    let mut more = *tested;
    more[run.byte as usize] |= run.block();
    let rest = room - run.width;
    let short = grow_short(alloc, cases, nodes, left, &more, least, rest, run)?;
    let kids = grow_kids(alloc, cases, nodes, left, &more, least, rest, run)?;
    let test = Node::Test {
        byte: run.byte,
        shift: run.shift,
        width: run.width,
        kids,
        short,
    };
    let number = add(cases, nodes, test)?;
    Ok(number)
}

/// Where the window has no such byte.
#[cycle(grow)]
fn grow_short(
    alloc: Global,
    cases: &[ByteCase],
    nodes: &mut Arena,
    left: &[u32],
    tested: &[u8; 32],
    least: u8,
    room: u8,
    run: Run,
) -> Result<NodeNo, NoMemory>
    requires graph { IsGraph (length cases.now) nodes.old }
    requires left { All (λ k. k < length cases.now) left.now }
    requires tested { length tested.now ≡ 32 }
    requires untested { AreUntested cases.now (kept cases.now run.byte run.shift run.width None left.now) tested.now least }
    ensures dead { IfOk result (λ n. (least ≤ run.byte) ⊎ IsLeafAt nodes.new n.0) }
    ensures built { IfOk result (λ n. IsBuilt cases.now nodes.old nodes.new n.0 (kept cases.now run.byte run.shift run.width None left.now) room tested.now least
        (FitsShort cases.now (kept cases.now run.byte run.shift run.width None left.now) tested.now least run.byte)) }
{
    if least > run.byte {
        let number = add(cases, nodes, Node::Leaf(None))?;
        return Ok(number);
    }
    let behind = left_behind(alloc, cases, left, run, None)?;
    let number = grow(alloc, cases, nodes, &behind, tested, least, room)?;
    Ok(number)
}

/// Behind each value of the bits.
#[cycle(grow)]
fn grow_kids(
    alloc: Global,
    cases: &[ByteCase],
    nodes: &mut Arena,
    left: &[u32],
    tested: &[u8; 32],
    least: u8,
    room: u8,
    run: Run,
) -> Result<KidList, NoMemory>
    requires graph { IsGraph (length cases.now) nodes.old }
    requires left { All (λ k. k < length cases.now) left.now }
    requires tested { length tested.now ≡ 32 }
    requires untested { (v : ℕ) → AreUntested cases.now (kept cases.now run.byte run.shift run.width (Some v) left.now) tested.now (max least (run.byte + 1)) }
    ensures each { IfOk result (λ kids. length kids ≡ 2 ^ run.width) }
    ensures kids { IfOk result (λ kids. AreKids cases.now nodes.old nodes.new kids left.now room tested.now (max least (run.byte + 1)) run.byte run.shift run.width) }
{
    let mut kids = KidList::new(alloc);
    for value in 0..power(run.width) {
        let behind = left_behind(alloc, cases, left, run, Some(value as u8))?;
        let kid = grow(
            alloc,
            cases,
            nodes,
            &behind,
            tested,
            least.max(run.byte + 1),
            room,
        )?;
        kids.push(kid.0)?;
    }
    Ok(kids)
}

/// The numbers below `count`.
fn numbers_below(alloc: Global, count: u32) -> Result<Vec<u32>, NoMemory>
    ensures { IfOk result (λ v. v.items ≡ range_with_len 0 count) }
{
    let mut numbers = Vec::new(alloc);
    for k in 0..count {
        numbers.push(k)?;
    }
    Ok(numbers)
}

/// The graph of fewer than 2^32 cases, with a limit of at most 24 bits: for each window the walk ends at the first case that the window
/// meets. On each path at most `limit` bits are tested, none of them twice, and a Check stands only where just `limit` bits were tested
/// before. Each Test asks for bits of the first case that is left there, and its links do not all lead to one node. `NoMemory` where there
/// is no memory for the nodes.
pub fn build_within(alloc: Global, cases: &[ByteCase], limit: u8) -> Result<Tree, NoMemory>
    requires count { length cases.now < 2 ^ 32 }
    requires limit { limit ≤ 24 }
    ensures cases { IfOk result (λ tree. tree.cases.items ≡ cases.now) }
    ensures walk { IfOk result (λ tree. (window : List ℕ) → walk tree window ≡ first_met cases.now window) }
    ensures reached { IfOk result (λ tree. (number : ℕ) → number < length tree.nodes → Reaches tree.nodes tree.root.0 number) }
    ensures distinct { IfOk result (λ tree. AllPairs (λ earlier later. earlier ≢ later) tree.nodes) }
    ensures ruled { IfOk result (λ tree. AreRuled cases.now tree.nodes tree.root.0 limit) }
{
    let numbers = numbers_below(alloc, cases.len() as u32)?;
    let mut nodes = Arena::new(alloc);
    let root = grow(alloc, cases, &mut nodes, &numbers, &[0; 32], 0, limit)?;
    let _count = nodes.len();
    let cases = Vec::from_slice(alloc, cases)?;
    Ok(Tree { cases, nodes, root })
}

/// `build_within` with a limit of 16 bits.
pub fn build(alloc: Global, cases: &[ByteCase]) -> Result<Tree, NoMemory>
    requires { length cases.now < 2 ^ 32 }
    ensures cases { IfOk result (λ tree. tree.cases.items ≡ cases.now) }
    ensures walk { IfOk result (λ tree. (window : List ℕ) → walk tree window ≡ first_met cases.now window) }
    ensures reached { IfOk result (λ tree. (number : ℕ) → number < length tree.nodes → Reaches tree.nodes tree.root.0 number) }
    ensures distinct { IfOk result (λ tree. AllPairs (λ earlier later. earlier ≢ later) tree.nodes) }
    ensures ruled { IfOk result (λ tree. AreRuled cases.now tree.nodes tree.root.0 16) }
{
    build_within(alloc, cases, 16)
}
