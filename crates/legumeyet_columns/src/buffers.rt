//! What records are written with.

use std::alloc::Global;

// What is said of a text, and that with spaces around it.
#[derive(Drop)]
pub(crate) struct Texts {
    pub said: Vec<u8>,
    pub padded: Vec<u8>,
}

/// Buffers that keep their room from record to record: those of a record as it is written, and of what is said of a text.
#[derive(Drop)]
pub struct Buffers {
    pub(crate) line: Vec<u8>,
    pub(crate) texts: Texts,
}

impl Buffers {
    /// Without any room yet. It does not allocate.
    pub fn new(alloc: Global) -> Self {
        Buffers {
            line: Vec::new(alloc),
            texts: Texts {
                said: Vec::new(alloc),
                padded: Vec::new(alloc),
            },
        }
    }
}
