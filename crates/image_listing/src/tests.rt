ghost use Rattle.std.specs.Prelude.{◌≡◌, decimal, OnOk};

use crate::{Decoder, ListFault, Listed, list};
use sled_base::{MemSink, MemSource, NoMemory};
use std::alloc::Global;
use std::test::Fail;

/// A place takes as many bytes as the low two bits of its first byte say, or all that are left; its text is the first byte.
#[derive(Drop)]
struct Small {
    number: String,
}

impl Decoder for Small {
    ghost use Rattle.std.specs.Prelude.{◌≡◌};
    ghost use Rattle.image_listing.specs.Small.{small_taking};

    ghost is_taking = { λ s taking. taking ≡ small_taking };

    fn take(
        &mut self,
        _alloc: Global,
        _place: u32,
        window: &[u8],
        words: &mut Vec<u8>,
    ) -> Result<Option<usize>, NoMemory> {
        let first = window[0];
        let count = window.len().min(usize::from(first % 4));
        if count == 0 {
            return Ok(None);
        }
        set_decimal(words, &mut self.number, first)?;
        Ok(Some(count))
    }
}

/// Makes the text a number.
fn set_decimal(text: &mut Vec<u8>, number: &mut String, value: u8) -> Result<(), NoMemory>
    ensures { OnOk result (text.new.items ≡ decimal value) }
{
    text.clear();
    number.clear();
    write!(number, "{value}")?;
    text.extend_from_slice(number.as_bytes())?;
    Ok(())
}

/// What `list` answers to the bytes in pieces of these sizes, where the reads and writes of these numbers fail, and what it writes.
fn run(
    alloc: Global,
    bytes: &[u8],
    sizes: &[u32],
    reads: &[u64],
    writes: &[u64],
) -> Result<(Result<Listed, ListFault>, Vec<u8>), NoMemory> {
    let mut small = Small {
        number: String::new(alloc),
    };
    let mut source = MemSource::in_pieces(alloc, bytes, sizes, reads)?;
    let mut sink = MemSink::new(alloc, 4096, writes)?;
    let answer = list(alloc, &mut small, 16, &mut source, &mut sink);
    Ok((answer, sink.bytes().to_vec(alloc)?))
}

const IMAGE: [u8; 7] = [1, 2, 9, 7, 200, 200, 5];

const LINES: [u8; 70] =
    *b"00000010: 01  1\n00000011: 0209  2\n00000013: 07c8c8  7\n00000016: 05  5\n";

#[test]
fn pieces(rt: HostRuntime) -> Result<(), Fail> {
    for sizes in [
        &[1, 1, 1, 1, 1, 1, 1, 1].as_slice(),
        &[5, 5].as_slice(),
        &[].as_slice(),
    ] {
        let (answer, text) = run(rt.alloc(), &IMAGE, sizes, &[], &[])?;
        assert_eq!(rt; answer, Ok(Listed { places: 4, end: 23 }));
        assert_eq!(rt; text.as_slice(), LINES.as_slice());
    }
    Ok(())
}

#[test]
fn a_refused_place(rt: HostRuntime) -> Result<(), Fail> {
    let (answer, text) = run(rt.alloc(), &[2, 9, 0, 1], &[], &[], &[])?;
    assert_eq!(rt; answer, Err(ListFault::NoMatch(18)));
    assert_eq!(rt; text.as_slice(), b"00000010: 0209  2\n".as_slice());
    Ok(())
}

#[test]
fn a_read_that_fails(rt: HostRuntime) -> Result<(), Fail> {
    let (answer, text) = run(rt.alloc(), &[3; 36], &[32], &[2], &[])?;
    assert_eq!(rt; answer, Err(ListFault::ReadFault));
    assert_eq!(rt; text.as_slice(), b"00000010: 030303  3\n".as_slice());
    Ok(())
}

#[test]
fn a_write_that_fails(rt: HostRuntime) -> Result<(), Fail> {
    let (answer, text) = run(rt.alloc(), &IMAGE, &[], &[], &[2])?;
    assert_eq!(rt; answer, Err(ListFault::WriteFault));
    assert_eq!(rt; text.as_slice(), &LINES[..16]);
    Ok(())
}
