// The bytes that were read and are not listed yet.
ghost use Rattle.std.specs.Prelude.{◌≡◌, ◌<◌, ◌≤◌, [], drop, take, length, true, false, OnOk, OnErr};
ghost use Rattle.std.specs.Option.{ForSome};
ghost use Rattle.sled_base.specs.Causes.{HasCause};
ghost use Rattle.image_listing.specs.Places.{Filled};

use arrayvec::ArrayVec;
use sled_base::{Failed, Source};

/// The bytes in hand, and whether the end of the source was seen.
#[derive(Drop)]
pub(crate) struct Window {
    pub held: ArrayVec<u8, 64>,
    pub at_end: bool,
}

impl Window {
    pub fn new() -> Window
        ensures held { result.held.items ≡ [] }
        ensures at_end { result.at_end ≡ false }
    {
        Window {
            held: ArrayVec::new(),
            at_end: false,
        }
    }

    /// Reads until 32 bytes are in hand or the end is seen.
    pub fn fill<I: Source>(&mut self, source: &mut I) -> Result<(), Failed>
        ensures filled { Filled self.old.held.items self.new.held.items self.old.at_end self.new.at_end (I.left source.old) (I.left source.new) }
        ensures enough { OnOk result (self.new.at_end ≡ false → 32 ≤ length self.new.held.items) }
        ensures unended { OnErr result (self.new.at_end ≡ false) }
        ensures few { OnErr result (length self.new.held.items < 32) }
        ensures cause { HasCause (I.faults source.old) (I.faults source.new) result }
    {
        let mut piece = [0u8; 32];
        while !self.at_end && self.held.len() < 32 {
            let count = source.read(&mut piece)?;
            if count == 0 {
                self.at_end = true;
            } else {
                match self.held.try_extend_from_slice(&piece[..count]) {
                    Ok(()) => (),
                    Err(_) => unreachable!(),
                }
            }
        }
        Ok(())
    }

    /// The first 32 bytes in hand, or all of them where they are fewer.
    pub fn front(&self) -> &[u8]
        ensures front { result.now ≡ take 32 self.now.held.items }
        ensures bounded { length self.now.held.items ≤ 64 }
    {
        let held = self.held.as_slice();
        &held[..held.len().min(32)]
    }

    /// Lets go of so many bytes.
    pub fn pass(&mut self, count: usize)
        requires { count ≤ length self.old.held.items }
        ensures held { self.new.held.items ≡ drop count self.old.held.items }
        ensures at_end { self.new.at_end ≡ self.old.at_end }
    {
        let mut rest = ArrayVec::new();
        match rest.try_extend_from_slice(&self.held.as_slice()[count..]) {
            Ok(()) => (),
            Err(_) => unreachable!(),
        }
        self.held = rest;
    }
}
