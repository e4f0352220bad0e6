// How a listing ended.
ghost use Rattle.std.specs.Prelude.{◌≡◌};

/// Why a listing ends before its bytes: at the place of that address nothing stands, or it has a byte behind the addresses.
#[derive(Clone, Copy, Debug, PartialEq, Eq)]
pub enum Stop {
    NoMatch(u64),
    AddressEnd(u64),
}

/// A whole listing: how many lines it has, and the address behind the last.
#[derive(Clone, Copy, Debug, PartialEq, Eq)]
pub struct Listed {
    pub places: u64,
    pub end: u64,
}

/// Why a listing was not written whole.
#[derive(Clone, Copy, Debug, PartialEq, Eq)]
pub enum ListFault {
    /// Nothing stands at this address.
    NoMatch(u64),
    /// At the place of this address a byte stands at 2^32 or above.
    AddressEnd(u64),
    /// The source cannot be read.
    ReadFault,
    /// The sink cannot be written.
    WriteFault,
    NoMemory,
}

impl From<Stop> for ListFault {
    ghost use Rattle.image_listing.specs.Listed.{fault_of};

    ghost from_gives = { λ stop fault. fault ≡ fault_of stop };

    fn from(stop: Stop) -> ListFault {
        match stop {
            Stop::NoMatch(address) => ListFault::NoMatch(address),
            Stop::AddressEnd(address) => ListFault::AddressEnd(address),
        }
    }
}
