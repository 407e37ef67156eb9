//! Answers rows of calls of `icu_locale_core`: each line of standard input is a row, and is written on standard output
//! with a tab and its answer after it. The README lists the calls.

#![tactic(auto)]

mod call;
mod calls;
mod data_locales;
mod entries;
mod errors;
mod extensions;
mod identifiers;
mod keywords;
mod locales;
mod part;
mod pieces;
mod preferences;
mod private_pieces;
mod refusals;
mod sets;
mod single;
mod steps;
mod subtags;
mod values;
mod writing;

use calls::Calls;
use rows::print_answers;
use std::io;

fn main(rt: HostRuntime) -> io::Result<()> {
    let alloc = rt.alloc();
    let input = io::read_to_string(alloc, rt.stdin())?;
    let printed = print_answers(&rt, alloc, input.as_str(), &Calls { alloc });
    drop(input);
    printed
}
