//! Typed values of the keywords of a locale: a first day, a currency, a numbering system.
//!
//! `en-u-fw-mon` has the keyword `fw`, whose value `mon` is the [`FirstDay`] `Mon`. Each type knows its key and which
//! values state it ([`PreferenceKey`]). The rules are in docs/tags.md, "Typed keywords" and "Preferences".
//!
//! ```rust
//! use icu_locale_core_keywords_fields::unicode::Value;
//! use icu_locale_core_preference_keywords::FirstDay;
//!
//! let first = FirstDay::try_from(&Value::try_from_str(alloc, "mon")?)?;      // FirstDay::Mon
//! ```
#![tactic(auto)]

mod error;
mod keywords;
pub mod laws;
mod one_piece;
mod piece_keyword;
mod preference_key;
mod subdivision;
mod subdivision_text;
mod word_keyword;

pub use crate::error::PreferencesParseError;
pub use crate::keywords::collation::{CollationCaseFirst, CollationNumericOrdering};
pub use crate::keywords::currency::{CurrencyFormatStyle, CurrencyType};
pub use crate::keywords::emoji::EmojiPresentationStyle;
pub use crate::keywords::first_day::FirstDay;
pub use crate::keywords::line_break::{LineBreakStyle, LineBreakWordHandling};
pub use crate::keywords::measurement_system::MeasurementSystem;
pub use crate::keywords::numbering_system::NumberingSystem;
pub use crate::keywords::subdivision_keyword::{RegionOverride, RegionalSubdivision};
pub use crate::preference_key::PreferenceKey;
pub use crate::subdivision::SubdivisionId;
pub use crate::word_keyword::WordKeyword;
