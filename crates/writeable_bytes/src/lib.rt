//! Writes texts into bytes of the caller's, without allocating.
//!
//! `a,b` written to four bytes `....` leaves `a,b.`, and to two of them `a,`, with the length 3 that it needs.

#![tactic(auto)]

mod bytes_sink;
mod error;
mod laying;
mod slice_writing;

pub use bytes_sink::BytesSink;
pub use error::TooSmall;
pub use slice_writing::{copy_to_slice, write_to_slice};
