//! Writing texts with named parts, and comparing or showing them without building them.
//!
//! A value that can be written is [`Writeable`]; a place that takes its text is a [`Sink`]. The
//! value `a,b` with the part A around all of it and B around the comma, written into a
//! [`PartsSink`], gives the text `a,b` and the parts (0, 3, A), (1, 2, B):
//!
//! ```
//! let mut sink = PartsSink::new(alloc);
//! pair.write_to(&mut sink)?;
//! sink.text();
//! sink.parts();
//! ```

#![tactic(auto)]

mod affixed;
mod compare_sink;
mod count_sink;
mod error;
mod format_sink;
pub mod laws;
mod length_hint;
mod part;
mod part_texts;
mod partless_sink;
mod parts_sink;
mod sink;
mod text_sink;
mod write;

pub use affixed::Affixed;
pub use compare_sink::{CompareSink, strict_cmp};
pub use count_sink::CountSink;
pub use error::Error;
pub use format_sink::display;
pub use length_hint::LengthHint;
pub use part::Part;
pub use part_texts::PartTexts;
pub use parts_sink::PartsSink;
pub use sink::Sink;
pub use text_sink::TextSink;
pub use write::Writeable;
