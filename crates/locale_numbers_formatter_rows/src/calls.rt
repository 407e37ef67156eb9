//! Which call a row asks for.

use crate::formats;
use rows::{Stop, Table};
use std::alloc::Global;

/// A call of a formatter: its name, the format of the formatter, and the text that the call is passed.
#[derive(Clone, Copy)]
pub struct Call<'r> {
    pub name: &'r str,
    pub format: &'r str,
    pub text: &'r str,
}

/// The table of the calls of `locale_numbers_formatter`.
#[derive(Clone, Copy)]
pub struct Calls {
    pub alloc: Global,
}

impl Table for Calls {
    fn answer(&self, row: &str, out: &mut String) -> Result<(), Stop> {
        let fields: Vec<&str> = row.split('\t').collect(self.alloc)?;
        let answered = answer_fields(fields.as_slice(), out);
        drop(fields);
        answered
    }
}

// The answer of a row taken apart.
fn answer_fields(fields: &[&str], out: &mut String) -> Result<(), Stop> {
    match fields {
        [name, format, text] => formats::answer(Call { name, format, text }, out),
        _ => Err(Stop::Unknown),
    }
}
