//! What says the texts of fields, as a trait.

ghost use Rattle.std.specs.Prelude.{◌≡◌, ◌≤◌, ℕ, Bool, List, Option, IfOk, false};
ghost use Rattle.legumeyet_columns.specs.Cells.{PutCell};

use std::alloc::AllocError;

/// Why a chosen field is refused before anything is said of its text, or after.
#[derive(Clone, Copy, Debug, PartialEq, Eq)]
pub enum FieldFault {
    /// A quote in front of it does not end where it ends.
    Quotes,
    /// What is said can't be a field: there are no quotes, and it has a delimiter or an end of a line.
    Delimiter,
}

/// One that says the texts of chosen fields, each alone: one that turns letters to upper case says `A` of `a`.
///
/// It is told the number of each record, from 1 on, so that it can tell what it refuses. Fields have an index, from 0 on.
pub trait FieldSayer {
    // Whether a field is chosen.
    ghost is_chosen: { Self → ℕ → Bool };

    // What it says of the text of a field; nothing where it refuses it.
    ghost said: { Self → ℕ → List ℕ → Option (List ℕ) };

    // Whether a record of so many fields lacks a chosen one.
    ghost misses: { Self → ℕ → Bool };

    /// Whether the field of this index is chosen.
    fn is_chosen(&self, index: usize) -> bool
        ensures value { result ≡ is_chosen self.now index };

    /// Puts what it says of a text after what `out` holds, and returns whether it says something; else it tells why not.
    ///
    /// It fails only where it is out of memory.
    fn say(
        &self,
        number: u64,
        index: usize,
        text: &[u8],
        out: &mut Vec<u8>,
    ) -> Result<bool, AllocError>
        ensures text { IfOk result (λ is_said. PutCell (said self.now index text.now) out.old.items out.new.items is_said) };

    /// Tells that a field is refused for another reason.
    fn tell_fault(&self, number: u64, index: usize, fault: FieldFault);

    /// Tells that a quote in a record does not end.
    fn tell_open(&self, number: u64);

    /// Whether a record of so many fields lacks a chosen one; where it does not, no field after them is chosen.
    fn misses(&self, count: usize) -> bool
        ensures value { result ≡ misses self.now count };

    /// Tells which chosen fields a record of so many fields lacks.
    fn tell_missing(&self, number: u64, count: usize);

    ghost all_before: { (s : Self) (count later : ℕ) → misses s count ≡ false → count ≤ later
        → (misses s later ≡ false) × (is_chosen s later ≡ false) };
}
