//! Rows of values over the public calls of `writeable`.

#![tactic(auto)]

pub mod caller;
#[cfg(test)]
mod examples;
#[cfg(test)]
mod fakes;
#[cfg(test)]
mod parts_sink;
#[cfg(test)]
mod sinks;
