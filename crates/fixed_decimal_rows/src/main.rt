//! Answers rows of calls of `fixed_decimal`: each line of standard input is a row, and is written
//! on standard output with a tab and its answer after it. The README lists the calls.

#![tactic(auto)]

mod calls;
mod compact;
mod concatenation;
mod counted;
mod decimal;
mod errors;
mod given;
mod in_place;
mod integers;
mod number;
mod one_byte;
mod rounding;
mod runs;
mod scientific;
mod step;
mod unsigned;
mod whole;
mod words;

use calls::Calls;
use rows::print_answers;
use std::io;

fn main(rt: HostRuntime) -> io::Result<()> {
    let alloc = rt.alloc();
    let input = io::read_to_string(alloc, rt.stdin())?;
    let printed = print_answers(&rt, alloc, input.as_str(), &Calls { alloc });
    drop(input);
    printed
}
