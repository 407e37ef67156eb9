//! Which call a row asks for.

use crate::case::Case;
use crate::{decimals, entries, given, locales, runs, sets, sinks};
use rows::{Stop, Table};

/// The table of the calls that change a receiver.
#[derive(Clone, Copy)]
pub struct Cases<'a> {
    pub rt: &'a HostRuntime,
}

impl Table for Cases<'_> {
    fn answer(&self, row: &str, out: &mut String) -> Result<(), Stop> {
        let fields: Vec<&str> = row.split('\t').collect(*out.allocator())?;
        let answered = answer_fields(self.rt, fields.as_slice(), out);
        drop(fields);
        answered
    }
}

// The answer of a row: whether its call may ask for memory, the call, the receiver, and the argument.
fn answer_fields(rt: &HostRuntime, fields: &[&str], out: &mut String) -> Result<(), Stop> {
    match fields {
        [_kind, call, receiver, argument] => answer_case(
            Case {
                rt,
                call,
                receiver,
                argument,
            },
            out,
        ),
        _ => Err(Stop::Unknown),
    }
}

// The answer of a call by its type.
fn answer_case(case: Case<'_>, out: &mut String) -> Result<(), Stop> {
    let Some((kind, _name)) = case.call.split_once("::") else {
        return Err(Stop::Unknown);
    };
    match kind {
        "Variants" | "Attributes" | "Private" => sets::answer(case, out),
        "Value" | "Keywords" | "Fields" | "Unicode" => entries::answer(case, out),
        "Call" if case.call == "Call::Round" => runs::answer(case, out),
        "GivenDigits" if case.call == "GivenDigits::push" => given::answer(case, out),
        "Locale" | "DataLocale" | "LocalePreferences" => locales::answer(case, out),
        "TextSink" | "PartsSink" => sinks::answer(case, out),
        _ => decimals::answer(case, out),
    }
}
