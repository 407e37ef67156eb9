//! How a writer takes its bytes.

use rows::{Stop, number_of, split_word};

/// How many bytes a writer takes a write and in all, whether it takes none of more or refuses them, and whether its
/// flush fails.
#[derive(Clone, Copy)]
pub struct Taking {
    pub at_once: usize,
    pub room: usize,
    pub takes_none: bool,
    pub flush_fails: bool,
}

impl Taking {
    /// The writer of `3`, of `3 errs at 10`, of `3 takes none at 10`, or of `3 flush fails`: three bytes a write, with
    /// room for all, or for ten; or with room for all and a flush that fails.
    pub fn of(field: &str) -> Result<Taking, Stop> {
        let (at_once, behind) = split_word(field);
        let (how, room) = behind.split_once(" at ").unwrap_or((behind, ""));
        let room = match how {
            "" | "flush fails" => usize::MAX,
            "errs" | "takes none" => number_of(room)?,
            _ => return Err(Stop::Unknown),
        };
        Ok(Taking {
            at_once: number_of(at_once)?,
            room,
            takes_none: how == "takes none",
            flush_fails: how == "flush fails",
        })
    }
}
