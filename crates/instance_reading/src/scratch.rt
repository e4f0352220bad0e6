// Buffers that reading uses again.
use std::alloc::Global;

/// Buffers for what is read of a body, used again for each, so that none of them is taken anew for each instance.
#[derive(Debug, Drop)]
pub struct Scratch {
    pub(crate) fields: Vec<i64>,
    pub(crate) labels: Vec<i64>,
}

impl Scratch {
    /// Empty buffers.
    pub fn new(alloc: Global) -> Scratch {
        Scratch {
            fields: Vec::new(alloc),
            labels: Vec::new(alloc),
        }
    }
}
