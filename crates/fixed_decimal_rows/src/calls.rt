//! Which call a row asks for.

use crate::{counted, errors, number, one_byte, runs};
use fixed_decimal::{CompactDecimal, Decimal, FixedInteger, ScientificDecimal, UnsignedDecimal};
use rows::{Stop, Table};
use std::alloc::Global;

/// The table of the calls of `fixed_decimal`.
#[derive(Clone, Copy)]
pub struct Calls {
    pub alloc: Global,
}

impl Table for Calls {
    fn answer(&self, row: &str, out: &mut String) -> Result<(), Stop> {
        let fields: Vec<&str> = row.split('\t').collect(self.alloc)?;
        let answered = answer_fields(self.alloc, fields.as_slice(), out);
        drop(fields);
        answered
    }
}

fn answer_fields(alloc: Global, fields: &[&str], out: &mut String) -> Result<(), Stop> {
    match fields.split_first() {
        Some((kind, fields)) => answer_by(alloc, kind, fields, out),
        None => Err(Stop::Unknown),
    }
}

// The answer of a row by the type, or the call, that it begins with.
fn answer_by(alloc: Global, kind: &str, fields: &[&str], out: &mut String) -> Result<(), Stop> {
    match kind {
        "UnsignedDecimal" => number::answer::<UnsignedDecimal>(alloc, fields, out),
        "Decimal" => number::answer::<Decimal>(alloc, fields, out),
        "FixedInteger" => number::answer::<FixedInteger>(alloc, fields, out),
        "CompactDecimal" => number::answer::<CompactDecimal>(alloc, fields, out),
        "ScientificDecimal" => number::answer::<ScientificDecimal>(alloc, fields, out),
        "run_calls" => runs::answer(alloc, fields, out),
        "run_calls_in_room" => runs::answer_in_room(alloc, fields, out),
        "expand_byte" => counted::byte_answer(alloc, fields, out),
        "differ_from_one_byte" => one_byte::answer(alloc, fields, out),
        "rounded_unlike_one_byte" => one_byte::rounded_answer(alloc, fields, out),
        _ => errors::answer(kind, fields, out),
    }
}
