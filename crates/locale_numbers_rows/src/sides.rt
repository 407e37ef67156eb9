//! Both sides of a run.

use crate::giving::Giving;
use crate::taking::Taking;
use rows::Stop;

/// What is written of a run after the way in which it ended.
#[derive(Clone, Copy)]
pub enum Left {
    /// How often the writer was flushed, which sides have failed, and what the writer holds.
    Sides,
    /// What the writer holds.
    Held,
    /// What the reader noted.
    Notes,
}

/// The input of a run, how it is given, how the output is taken, and what is written of them.
#[derive(Clone, Copy)]
pub struct Sides<'i> {
    pub input: &'i [u8],
    pub giving: Giving,
    pub taking: Taking,
    pub left: Left,
}

impl<'i> Sides<'i> {
    /// The sides of a reader and a writer that fields spell.
    pub fn of(reader: &str, writer: &str, input: &'i [u8], left: Left) -> Result<Sides<'i>, Stop> {
        Ok(Sides {
            input,
            giving: Giving::of(reader)?,
            taking: Taking::of(writer)?,
            left,
        })
    }
}
