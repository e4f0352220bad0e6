//! The program: the words of the command line, the files of the folder as the shelf, and the standard streams.
#![tactic(auto)]

use std::alloc::{AllocError, Global};
use std::env::{self, Args};
use std::io::{self, BufReader, BufWriter, ErrorKind};
use std::process::ExitCode;
use toolkit_cli::{Status, run};
use toolkit_edge::{Folder, Reading, Writing};

/// How many bytes are read, and how many are written, at a time.
const BUFFER: usize = 65536;

fn main(rt: HostRuntime) -> ExitCode {
    let status = answer(&rt, rt.alloc()).unwrap_or(Status::NoMemory);
    ExitCode::from(status.code())
}

// Runs over the standard streams, with a buffer before each. Where the words or the buffers get no memory there is no status.
fn answer(rt: &HostRuntime, alloc: Global) -> io::Result<Status> {
    let words = own_words(rt, alloc)?;
    let mut input = Reading::new(BufReader::with_capacity(alloc, BUFFER, rt.stdin())?);
    let mut out = Writing::new(BufWriter::with_capacity(alloc, BUFFER, rt.stdout())?);
    let mut notes = Writing::new(BufWriter::new(alloc, rt.stderr())?);
    let mut shelf = Folder::new(rt, alloc);
    let status = run(alloc, &words, &mut shelf, &mut input, &mut out, &mut notes);
    // the output goes first, so that a message stands behind the lines that it is about
    match (out.flush(), notes.flush()) {
        (Ok(()), Ok(())) => Ok(status),
        _ => Ok(Status::WriteFault),
    }
}

// The words without the program's name. Where one is not text there are none, which have no form.
fn own_words(rt: &HostRuntime, alloc: Global) -> Result<Vec<String>, AllocError> {
    match env::args(rt) {
        Ok(words) => words.skip(1).collect(alloc),
        Err(error) if error.kind() == ErrorKind::OutOfMemory => Err(AllocError),
        Err(_) => Ok(Vec::new(alloc)),
    }
}
