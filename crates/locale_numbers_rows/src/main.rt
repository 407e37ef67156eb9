//! Answers rows of calls of `locale_numbers`: each line of standard input is a row, and is written on standard output
//! with a tab and its answer after it. The README lists the calls.

#![tactic(auto)]

mod answers;
mod book_run;
mod books;
mod caller;
mod calls;
mod counting;
mod faults;
mod formatters;
mod giving;
mod narrow;
mod one_by_one;
mod pieces;
mod plain;
mod repeated;
mod runs;
mod sent_back;
mod shelf;
mod shouter;
mod sides;
mod starts;
mod taking;
mod tracked;
mod unit_caller;
mod world;

use calls::Calls;
use rows::print_answers;
use std::io;

fn main(rt: HostRuntime) -> io::Result<()> {
    let alloc = rt.alloc();
    let input = io::read_to_string(alloc, rt.stdin())?;
    let calls = Calls { files: &rt, alloc };
    let printed = print_answers(&rt, alloc, input.as_str(), &calls);
    drop(input);
    printed
}
