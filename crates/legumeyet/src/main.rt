//! Writes numbers as the readers of a locale write them, and reads what they type: `legumeyet --tag de 1234567.891`.

#![tactic(auto)]

mod acting;
mod asking;
mod book_text;
mod column_words;
mod columns;
mod environment;
mod fault;
mod input;
mod listing;
mod messages;
mod numbers;
mod parts;
mod remembering;
mod report;
mod request_lines;
mod sayers;
mod tables;
mod words;

use acting::act;
use clap::ArgMatches;
use fault::CallFault;
use legumeyet_options::command;
use report::{tell_fault, tell_usage, tell_words};
use std::alloc::Global;
use std::env;
use std::io::{BufWriter, ErrorKind, Write};
use std::process::ExitCode;

// What the words say, or why they are wrong; help and the version are such errors too.
fn parsed<'a>(alloc: Global, words: &'a [String]) -> Result<ArgMatches<'a>, clap::Error> {
    command(alloc)?.try_get_matches_from(words)
}

// Does what the words ask for and writes out all of it, and returns the status.
fn act_whole(rt: &HostRuntime, matches: &ArgMatches<'_>) -> Result<u8, CallFault> {
    let Ok(mut out) = BufWriter::new(rt.alloc(), rt.stdout()) else {
        return Err(CallFault::MEMORY);
    };
    let done = act(rt, matches, &mut out);
    let flushed = out.flush();
    match (done, flushed) {
        (Ok(status), Ok(())) => Ok(status),
        (Ok(_), Err(error)) => Err(CallFault::Write(error)),
        (Err(fault), _) => Err(fault),
    }
}

// The status of a call by these words.
fn status_of(rt: &HostRuntime, words: &[String]) -> u8 {
    match parsed(rt.alloc(), words) {
        Ok(matches) => {
            let done = act_whole(rt, &matches);
            drop(matches);
            match done {
                Ok(status) => status,
                Err(fault) => tell_fault(rt, &fault),
            }
        }
        Err(error) => {
            let status = tell_usage(rt, &error);
            drop(error);
            status
        }
    }
}

fn main(rt: HostRuntime) -> ExitCode {
    let all = match env::args(&rt) {
        Ok(all) => all,
        Err(error) if error.kind() == ErrorKind::OutOfMemory => {
            return ExitCode::from(tell_fault(&rt, &CallFault::MEMORY));
        }
        Err(_) => return ExitCode::from(tell_words(&rt)),
    };
    match all.collect::<Vec<String>>(rt.alloc()) {
        Ok(words) => {
            let status = status_of(&rt, &words);
            drop(words);
            ExitCode::from(status)
        }
        Err(_) => ExitCode::from(tell_fault(&rt, &CallFault::MEMORY)),
    }
}
