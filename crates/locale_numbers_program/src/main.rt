//! Answers the request lines of standard input on standard output.
//!
//! The line `en`, `plain`, `auto`, `keep`, `-`, `-987654.321`, with tabs between, is answered by
//! `ok`, a tab and `-987,654.321`.

#![tactic(auto)]

use locale_numbers::{Tracked, start};
use std::process::ExitCode;

fn main(rt: HostRuntime) -> ExitCode {
    let mut reader = Tracked::new(rt.stdin());
    let mut writer = Tracked::new(rt.stdout());
    match start(&rt, &mut reader, &mut writer) {
        Ok(()) => ExitCode::SUCCESS,
        Err(fault) => {
            let _ = eprintln!(rt; "{fault}");
            ExitCode::from(fault.status())
        }
    }
}
