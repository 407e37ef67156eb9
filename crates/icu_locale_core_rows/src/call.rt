//! A row taken apart.

use rows::Stop;
use std::alloc::Global;

/// The call of a row and its arguments; one that is missing is the empty text.
#[derive(Clone, Copy)]
pub struct Call<'r> {
    pub alloc: Global,
    /// The type: `Locale`.
    pub kind: &'r str,
    /// The call: `total_cmp`.
    pub name: &'r str,
    pub first: &'r str,
    pub second: &'r str,
    pub third: &'r str,
    /// The bytes that the last field of the row spells: an é of `\xC3\xA9`.
    pub bytes: &'r [u8],
}

impl<'r> Call<'r> {
    /// The row `Locale`, `total_cmp`, `en-x-a`, `en-US`, with tabs between, taken apart; one that names no call, or has
    /// more arguments, is not understood.
    pub fn of(alloc: Global, row: &'r str, bytes: &'r [u8]) -> Result<Call<'r>, Stop> {
        let mut fields = row.split('\t');
        let call = Call {
            alloc,
            kind: fields.next().unwrap_or(""),
            name: fields.next().unwrap_or(""),
            first: fields.next().unwrap_or(""),
            second: fields.next().unwrap_or(""),
            third: fields.next().unwrap_or(""),
            bytes,
        };
        if call.name.is_empty() || fields.next().is_some() {
            return Err(Stop::Unknown);
        }
        Ok(call)
    }

    /// The call that reads the value of a text.
    pub fn reading(&self, text: &'r str) -> Call<'r> {
        Call {
            alloc: self.alloc,
            kind: self.kind,
            name: "try_from_str",
            first: text,
            second: "",
            third: "",
            bytes: self.bytes,
        }
    }
}
