//! Bytes cut into lines, each answered by one answerer and written out as soon as it is whole.
//!
//! The engine knows nothing of what is asked or answered: an [`Answerer`] does. [`run_with`] reads
//! from a [`ByteReader`] and writes to a [`ByteWriter`]; [`Tracked`] makes these of std's own:
//!
//! ```text
//! let mut reader = Tracked::new(rt.stdin());
//! let mut writer = Tracked::new(rt.stdout());
//! let report = run_with(rt.alloc(), &mut answerer, &mut reader, &mut writer)?;
//! ```

#![tactic(auto)]

mod answerer;
mod byte_reader;
mod byte_writer;
mod feeding;
mod first_line;
pub mod laws;
mod ready_answers;
mod report;
mod run_error;
mod streaming;
mod tracked;
mod writing;

pub use answerer::Answerer;
pub use byte_reader::{ByteReadFault, ByteReader};
pub use byte_writer::{ByteWriteFault, ByteWriter};
pub use report::Report;
pub use run_error::RunError;
pub use streaming::run_with;
pub use tracked::Tracked;
