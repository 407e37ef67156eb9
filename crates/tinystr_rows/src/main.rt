//! Answers lines that each name a call of `tinystr`, a capacity and the call's arguments.
//!
//! A line is repeated, with a tab and its answer after it: what is written reads as a table.

#![tactic(auto)]

mod aligned;
mod argument;
mod ascii_bytes;
mod comparing;
mod decimal;
mod errors;
mod joining;
mod json;
mod line;
mod lossy;
mod readers;
mod texts;
mod ule;
mod unvalidated;
mod words;
mod writing;

use line::Calls;
use rows::print_answers;
use std::io;

fn main(rt: HostRuntime) -> io::Result<()> {
    let alloc = rt.alloc();
    let input = io::read_to_string(alloc, rt.stdin())?;
    let printed = print_answers(&rt, alloc, input.as_str(), &Calls { alloc });
    drop(input);
    printed
}
