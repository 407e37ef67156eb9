//! How a reader gives its bytes.

use rows::{Stop, number_of, split_word};

/// How many bytes a reader gives at its first read and at the others, how many reads it answers, and whether it fails
/// after its last byte.
#[derive(Clone, Copy)]
pub struct Giving {
    pub at_first: usize,
    pub at_once: usize,
    pub reads: u64,
    pub ends_badly: bool,
}

impl Giving {
    /// The reader of `3`, of `3 then fails`, or of `3 fails after 1`: three bytes a read, to the end; then it fails; or
    /// after one read it fails.
    pub fn of(field: &str) -> Result<Giving, Stop> {
        let (at_once, behind) = split_word(field);
        let at_once = number_of(at_once)?;
        let reads = match behind.strip_prefix("fails after ") {
            Some(reads) => number_of(reads)?,
            None if behind.is_empty() || behind == "then fails" => u64::MAX,
            None => return Err(Stop::Unknown),
        };
        Ok(Giving {
            at_first: at_once,
            at_once,
            reads,
            ends_badly: behind == "then fails",
        })
    }
}
