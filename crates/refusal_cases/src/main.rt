//! Answers rows that each name a call, a receiver and an argument: what the receiver is after the call, or that memory
//! was refused and what it is then.
//!
//! Before the call a row reads standard input once more. What `tools/try_refusals` refuses from that read on is asked
//! only by the call: all that comes before it is made, and there is room for the answer.

#![tactic(auto)]

mod case;
mod cases;
mod change;
mod counted;
mod decimals;
mod entries;
mod given;
mod in_place;
mod locales;
mod runs;
mod sets;
mod sinks;

use cases::Cases;
use rows::print_answers;
use std::io;

fn main(rt: HostRuntime) -> io::Result<()> {
    let alloc = rt.alloc();
    let input = io::read_to_string(alloc, rt.stdin())?;
    let printed = print_answers(&rt, alloc, input.as_str(), &Cases { rt: &rt });
    drop(input);
    printed
}
