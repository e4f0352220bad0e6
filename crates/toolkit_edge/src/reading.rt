// A reader as a source.
ghost use Rattle.std.specs.Prelude.{◌≡◌, ◌<◌, ℕ, List, length, OnOk, OnErr};
ghost use Rattle.std.specs.Io.{ReadsAtMost};
ghost use Rattle.std.specs.Io.KnownBytes.{ReadConsumes};
ghost use Rattle.sled_base.specs.Causes.{HasCause};
ghost use Rattle.sled_base.specs.Memory.{counted};

use sled_base::{Failed, Source};
use std::io::Read;
use std::marker::Model;

/// A reader that counts its faults, as a source. It tells the bytes that the reader's type tells: for a file or a stream of the system
/// none, so nothing is claimed of what is read there. Contracts see it as a `Stream`.
#[derive(Drop)]
pub struct Reading<R: Read> {
    inner: R,
    faults: u64,
}

impl<R: Read> Model for Reading<R> {
    ghost use Rattle.toolkit_edge.specs.Stream.{Stream};

    ghost Value = { Stream };

    ghost view = { λ s. record { known = R.remaining s.inner; faults = s.faults } };
}

impl<R: Read> Reading<R> {
    /// The reader as a source, with no fault so far.
    pub fn new(inner: R) -> Reading<R>
        ensures { result ≡ record { known = R.remaining inner; faults = 0 } }
    {
        Reading { inner, faults: 0 }
    }
}

impl<R: Read> Source for Reading<R> {
    ghost left = { λ s. s.known };

    ghost faults = { λ s. s.faults };

    /// Reads once: moves the next bytes to the front of `buf` and answers how many, 0 at the end of the input. Each error of the reader is
    /// `Failed`, and the count goes up by one. An Ok leaves the count as it was.
    fn read(&mut self, buf: &mut [u8]) -> Result<usize, Failed>
        requires { 0 < length buf.old }
        ensures bound { ReadsAtMost result buf.new }
        ensures bytes { ReadConsumes self.old.known self.new.known result buf.new }
        ensures cause { HasCause self.old.faults self.new.faults result }
        ensures kept { OnOk result (self.new.faults ≡ self.old.faults) }
        ensures failed { OnErr result (self.new.faults ≡ counted self.old.faults) }
    {
        match self.inner.read(buf) {
            Ok(count) => Ok(count),
            Err(_) => {
                self.faults = self.faults.saturating_add(1);
                Err(Failed)
            }
        }
    }

    /// How often a read failed.
    fn faults(&self) -> u64 {
        self.faults
    }
}
