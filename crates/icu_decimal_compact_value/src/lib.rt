//! What a compact text shows: entries of compact tables, and the value shown in place of a number.
//!
//! With an entry of type 3 and exponent 3, as of `K`, 1650 is shown as 1.6 under that entry. The rules are in
//! docs/compact-text.md.
#![tactic(auto)]

mod entry;
mod error;
mod exact;
pub mod laws;
mod places;
mod shown;
mod table;

pub use entry::CompactEntry;
pub use error::CompactExponentError;
pub use exact::{entry_with, exact_entry, exponent_in_range};
pub use shown::{Shown, ShownUnder, can_show, divide, show, show_in_place};
pub use table::exponent_for_magnitude;
