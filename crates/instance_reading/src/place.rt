// Where a result was found.
use sled_model::Spec;

/// Where a result was found.
#[derive(Clone, Copy)]
pub struct Place<'a> {
    /// The description by which it is read.
    pub spec: &'a Spec,
    /// The bytes from the first of the whole match on.
    pub window: &'a [u8],
    /// The address of the first of them.
    pub location: u32,
}
