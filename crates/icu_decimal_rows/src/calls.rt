//! Which call a row asks for.

use crate::formatters::FormatterCall;
use crate::marks::{Marks, Signs};
use crate::{copies, formatters, plurals, preferences, shown, tables};
use rows::{Stop, Table};
use std::alloc::Global;

const NO_SIGNS: Signs<'static> = Signs {
    minus: "",
    plus: "",
};

const ENGLISH_SIGNS: Signs<'static> = Signs {
    minus: "-",
    plus: "+",
};

/// The table of the calls of `icu_decimal`.
#[derive(Clone, Copy)]
pub struct Calls {
    pub alloc: Global,
}

impl Table for Calls {
    fn answer(&self, row: &str, out: &mut String) -> Result<(), Stop> {
        let fields: Vec<&str> = row.split('\t').collect(self.alloc)?;
        let answered = answer_fields(fields.as_slice(), out);
        drop(fields);
        answered
    }
}

// The answer of a row taken apart, by the call that it begins with.
fn answer_fields(fields: &[&str], out: &mut String) -> Result<(), Stop> {
    match fields.split_first() {
        Some((name, passed)) => answer_by(name, passed, out),
        None => Err(Stop::Unknown),
    }
}

fn answer_by(name: &str, passed: &[&str], out: &mut String) -> Result<(), Stop> {
    match name {
        "category" | "rules" | "operands" | "is_exactly" | "get_for_cldr_bytes" => {
            plurals::answer(name, passed, out)
        }
        "show" | "show_in_place" | "exact_entry" | "exponent_for_magnitude" => {
            shown::answer(name, passed, out)
        }
        "table" => tables::answer(passed, out),
        "to_json" | "from_json" | "category_by_copy" => copies::answer(name, passed, out),
        "preferences" => preferences::answer(passed, out),
        "options" => preferences::options(passed, out),
        "plain" => answer_by_marks(name, passed, out),
        "read_lenient" | "read_kept" | "read_or_english" => answer_by_signs(name, passed, out),
        "under" => answer_under_marks(passed, out),
        _ => answer_by_formatter(name, passed, out),
    }
}

// The answer of a call of a formatter: after its name are what the formatter is made of and what the call is passed.
fn answer_by_formatter<'r>(
    name: &'r str,
    fields: &'r [&'r str],
    out: &mut String,
) -> Result<(), Stop> {
    let [form, grouping, rules, table, passed @ ..] = fields else {
        return Err(Stop::Unknown);
    };
    let call = FormatterCall {
        name,
        form,
        grouping,
        rules,
        table,
        marks: None,
        passed,
    };
    formatters::answer(&call, out)
}

// The answer of a call of a plain formatter with separators, sizes and digits of its row.
fn answer_by_marks<'r>(name: &'r str, fields: &'r [&'r str], out: &mut String) -> Result<(), Stop> {
    let [decimal, group, sizes, digits, grouping, passed @ ..] = fields else {
        return Err(Stop::Unknown);
    };
    let call = FormatterCall {
        name,
        form: "plain",
        grouping,
        rules: "",
        table: "",
        marks: Some(Marks::of(NO_SIGNS, decimal, group, sizes, digits)?),
        passed,
    };
    formatters::answer(&call, out)
}

// The answer of a call of a plain formatter with separators, sizes, digits and prefixes of signs of its row.
fn answer_by_signs<'r>(name: &'r str, fields: &'r [&'r str], out: &mut String) -> Result<(), Stop> {
    let [
        decimal,
        group,
        sizes,
        digits,
        minus,
        plus,
        grouping,
        passed @ ..,
    ] = fields
    else {
        return Err(Stop::Unknown);
    };
    let signs = Signs { minus, plus };
    let call = FormatterCall {
        name,
        form: "plain",
        grouping,
        rules: "",
        table: "",
        marks: Some(Marks::of(signs, decimal, group, sizes, digits)?),
        passed,
    };
    formatters::answer(&call, out)
}

// The answer of a call of a formatter with separators, sizes and digits of its row, which are before its name, and
// with `-` and `+`.
fn answer_under_marks(fields: &[&str], out: &mut String) -> Result<(), Stop> {
    let [
        decimal,
        group,
        sizes,
        digits,
        name,
        form,
        grouping,
        rules,
        table,
        passed @ ..,
    ] = fields
    else {
        return Err(Stop::Unknown);
    };
    let call = FormatterCall {
        name,
        form,
        grouping,
        rules,
        table,
        marks: Some(Marks::of(ENGLISH_SIGNS, decimal, group, sizes, digits)?),
        passed,
    };
    formatters::answer(&call, out)
}
