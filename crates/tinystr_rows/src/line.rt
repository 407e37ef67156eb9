//! A line and its answer.

ghost use Rattle.std.specs.Prelude.{◌≤◌};

use crate::argument::{Argument, arguments_of};
use crate::{
    aligned, ascii_bytes, comparing, decimal, errors, joining, json, lossy, readers, texts, ule,
    unvalidated, words,
};
use rows::{Stop, Table};
use std::alloc::Global;

/// The table of the calls of `tinystr`.
#[derive(Clone, Copy)]
pub struct Calls {
    pub alloc: Global,
}

impl Table for Calls {
    fn answer(&self, row: &str, out: &mut String) -> Result<(), Stop> {
        let words: Vec<&str> = row.split('\t').collect(self.alloc)?;
        let answered = answer_words(self.alloc, words.as_slice(), out);
        drop(words);
        answered
    }
}

fn answer_words(alloc: Global, words: &[&str], out: &mut String) -> Result<(), Stop> {
    match words {
        [module, error, counts @ ..] if *module == "error" => errors::answer(error, counts, out),
        [module, call, first] if *module == "asciibyte" => ascii_bytes::answer(call, first, out),
        [module, name, capacity, rest @ ..] => {
            let arguments = arguments_of(alloc, rest)?;
            let answered = answer_call(module, name, capacity, arguments.as_slice(), out);
            drop(arguments);
            answered
        }
        _ => Err(Stop::Unknown),
    }
}

// The answer of a call at a capacity, which is 0 to 16.
fn answer_call(
    module: &str,
    name: &str,
    capacity: &str,
    arguments: &[Argument<'_>],
    out: &mut String,
) -> Result<(), Stop> {
    if module == "joining" {
        return joining::answer(name, capacity, arguments, out);
    }
    match capacity {
        "0" => answer_at::<0>(module, name, arguments, out),
        "1" => answer_at::<1>(module, name, arguments, out),
        "2" => answer_at::<2>(module, name, arguments, out),
        "3" => answer_at::<3>(module, name, arguments, out),
        "4" => answer_at::<4>(module, name, arguments, out),
        "5" => answer_at::<5>(module, name, arguments, out),
        "6" => answer_at::<6>(module, name, arguments, out),
        "7" => answer_at::<7>(module, name, arguments, out),
        "8" => answer_at::<8>(module, name, arguments, out),
        "9" => answer_at::<9>(module, name, arguments, out),
        "10" => answer_at::<10>(module, name, arguments, out),
        "11" => answer_at::<11>(module, name, arguments, out),
        "12" => answer_at::<12>(module, name, arguments, out),
        "13" => answer_at::<13>(module, name, arguments, out),
        "14" => answer_at::<14>(module, name, arguments, out),
        "15" => answer_at::<15>(module, name, arguments, out),
        "16" => answer_at::<16>(module, name, arguments, out),
        _ => Err(Stop::Unknown),
    }
}

// The answer of a call of one module of `tinystr`.
fn answer_at<const N: usize>(
    module: &str,
    call: &str,
    arguments: &[Argument<'_>],
    out: &mut String,
) -> Result<(), Stop>
    requires { N ≤ 16 }
{
    match module {
        "aligned4" => aligned::answer_of_four::<N>(call, arguments, out),
        "aligned8" => aligned::answer_of_eight::<N>(call, arguments, out),
        "ascii" | "case" | "classes" => texts::answer::<N>(call, arguments, out),
        "comparing" => comparing::answer::<N>(call, arguments, out),
        "decimal" => decimal::answer::<N>(call, arguments, out),
        "json" => json::answer::<N>(call, arguments, out),
        "lossy" => lossy::answer::<N>(call, arguments, out),
        "readers" => readers::answer::<N>(call, arguments, out),
        "ule" => ule::answer::<N>(call, arguments, out),
        "unvalidated" => unvalidated::answer::<N>(call, arguments, out),
        "words" if call == "alike" && arguments.is_empty() => words::answer::<N>(out),
        _ => Err(Stop::Unknown),
    }
}
