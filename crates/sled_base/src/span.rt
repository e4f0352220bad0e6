// A place in a text.

/// A piece of a text, from `start` to just before `end`, both counted in bytes from 0.
#[derive(Clone, Copy, Debug, PartialEq, Eq)]
pub struct Span {
    /// The place of its first byte.
    pub start: u32,
    /// The place just after its last byte.
    pub end: u32,
}
