//! Numbers with a unit as a locale writes them: percents and amounts of money.
//!
//! A pattern has the texts around the number and the unit, and may have others for a minus and for a plus: in Swiss
//! German -5 francs are `CHF-5`. The rules are in docs/units.md.
//!
//! ```rust
//! use icu_dimension_affixes::{Unit, UnitAffixes, UnitKind, UnitPattern, UnitTables};
//!
//! let affixes = UnitAffixes::try_new(alloc, "¤", "")?;
//! let pattern = UnitPattern::new(affixes, None, None);
//! let unit = Unit { kind: UnitKind::Currency, text: "€" };
//! let tables = UnitTables::new(formatter.tables(), &pattern, unit);
//! tables.format(&amount).write_to(&mut sink)?;                            // -€1,234.50
//! ```
#![tactic(auto)]

mod affixes;
mod error;
pub mod laws;
mod number_in_unit;
pub mod parts;
mod patterns;
mod reader;
mod sign_affixes;
pub mod steps;
mod tables;
mod unit;

pub use affixes::{UnitAffixes, UnitPlace};
pub use error::UnitPatternError;
pub use number_in_unit::NumberInUnit;
pub use patterns::{LetterEnds, UnitPattern, UnitPatterns};
pub use reader::UnitReader;
pub use tables::{FormattedUnit, UnitTables};
pub use unit::{Unit, UnitKind};
