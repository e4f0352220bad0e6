//! Whole runs of the program over texts, an input and sinks in memory, for tests.
#![tactic(auto)]

use sled_base::{MemShelf, MemSink, MemSource};
use std::alloc::Global;
use std::test::Fail;
use toolkit_cli::{Status, run};

/// The texts `s` and `m`, the input, the most that each read of it gives, the calls that fail for each of the four, and the room of the output.
#[derive(Drop)]
pub struct Outside<'a> {
    pub spec: &'a str,
    pub matching: &'a str,
    pub input: &'a [u8],
    pub sizes: &'a [u32],
    pub shelf_fails: &'a [u64],
    pub input_fails: &'a [u64],
    pub out_fails: &'a [u64],
    pub room: u32,
    pub notes_fail: &'a [u64],
}

/// The status, the output and the notes.
pub fn answer(
    alloc: Global,
    words: &[&str],
    outside: &Outside<'_>,
) -> Result<(Status, MemSink, MemSink), Fail> {
    let mut owned = Vec::new(alloc);
    for word in words {
        owned.push(String::from_str(alloc, word)?)?;
    }
    let mut shelf = MemShelf::new(alloc, outside.shelf_fails)?;
    shelf.add(b"s", outside.spec.as_bytes())?;
    shelf.add(b"m", outside.matching.as_bytes())?;
    let mut input = MemSource::in_pieces(alloc, outside.input, outside.sizes, outside.input_fails)?;
    let mut out = MemSink::new(alloc, outside.room, outside.out_fails)?;
    let mut notes = MemSink::new(alloc, 200, outside.notes_fail)?;
    let status = run(alloc, &owned, &mut shelf, &mut input, &mut out, &mut notes);
    Ok((status, out, notes))
}

/// The texts and the input, where no call fails.
pub fn sound<'a>(spec: &'a str, matching: &'a str, input: &'a [u8]) -> Outside<'a> {
    Outside {
        spec,
        matching,
        input,
        sizes: &[],
        shelf_fails: &[],
        input_fails: &[],
        out_fails: &[],
        room: 800,
        notes_fail: &[],
    }
}
