// A writer as a sink.
ghost use Rattle.std.specs.Prelude.{◌≡◌, ◌<◌, ◌≤◌, ℕ, List, length, IfOk, OnOk, OnErr};
ghost use Rattle.std.specs.Io.KnownBytes.{Keeps, WriteAppends};
ghost use Rattle.sled_base.specs.Causes.{HasCause};
ghost use Rattle.sled_base.specs.Memory.{counted};

use sled_base::{Failed, Sink};
use std::io::Write;
use std::marker::Model;

/// A writer that counts its faults, as a sink. It tells the bytes that the writer's type tells: for a file or a stream of the system
/// none, so nothing is claimed of what is written there. Contracts see it as a `Stream`.
#[derive(Drop)]
pub struct Writing<W: Write> {
    inner: W,
    faults: u64,
}

impl<W: Write> Model for Writing<W> {
    ghost use Rattle.toolkit_edge.specs.Stream.{Stream};

    ghost Value = { Stream };

    ghost view = { λ s. record { known = W.contents s.inner; faults = s.faults } };
}

impl<W: Write> Writing<W> {
    /// The writer as a sink, with no fault so far.
    pub fn new(inner: W) -> Writing<W>
        ensures { result ≡ record { known = W.contents inner; faults = 0 } }
    {
        Writing { inner, faults: 0 }
    }

    /// Hands on what the writer holds back in a buffer of its own. An error of the writer is `Failed`, and the count goes up by one; an Ok
    /// leaves the count as it was. The bytes that the writer tells stay the same.
    pub fn flush(&mut self) -> Result<(), Failed>
        ensures bytes { Keeps self.old.known self.new.known }
        ensures cause { HasCause self.old.faults self.new.faults result }
        ensures kept { OnOk result (self.new.faults ≡ self.old.faults) }
        ensures failed { OnErr result (self.new.faults ≡ counted self.old.faults) }
    {
        match self.inner.flush() {
            Ok(()) => Ok(()),
            Err(_) => {
                self.faults = self.faults.saturating_add(1);
                Err(Failed)
            }
        }
    }
}

impl<W: Write> Sink for Writing<W> {
    ghost contents = { λ s. s.known };

    ghost faults = { λ s. s.faults };

    /// Writes once: hands the first bytes of `piece` to the writer and answers how many it took, at least one. Each error of the writer,
    /// and a write that takes 0 bytes, is `Failed`, and the count goes up by one. An Ok leaves the count as it was.
    fn write(&mut self, piece: &[u8]) -> Result<usize, Failed>
        requires { 0 < length piece.now }
        ensures count { IfOk result (λ n. (0 < n) × (n ≤ length piece.now)) }
        ensures bytes { WriteAppends self.old.known self.new.known result piece.now }
        ensures cause { HasCause self.old.faults self.new.faults result }
        ensures kept { OnOk result (self.new.faults ≡ self.old.faults) }
        ensures failed { OnErr result (self.new.faults ≡ counted self.old.faults) }
    {
        match self.inner.write(piece) {
            Ok(count) if count > 0 => Ok(count),
            _ => {
                self.faults = self.faults.saturating_add(1);
                Err(Failed)
            }
        }
    }

    /// How often a write failed.
    fn faults(&self) -> u64 {
        self.faults
    }
}
