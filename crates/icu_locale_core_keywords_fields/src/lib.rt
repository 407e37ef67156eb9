//! Keywords and fields: maps from keys to values, read, changed and written.
//!
//! In `en-u-ca-buddhist-nu-thai` the keywords after `u` are the map of `ca` to `buddhist` and `nu` to `thai`, and
//! fields after `t` have the same form. Both are one type, [`EntriesOf`], over the rule of their keys. The rules are
//! in docs/tags.md.
//!
//! ```rust
//! use icu_locale_core_keywords_fields::unicode::Keywords;
//!
//! let mut keywords = Keywords::try_from_str(alloc, "NU-thai-ca-buddhist-nu-latn")?;
//! assert_eq!(rt; keywords.write_to_string(alloc)?.as_str(), "ca-buddhist-nu-thai");
//! ```
#![tactic(auto)]

mod collecting;
mod entries;
mod entries_comparing;
mod entries_reading;
mod entries_writing;
mod headed;
mod kind;
pub mod laws;
mod lending;
mod placing;
mod retaining;
mod value;
mod value_comparing;
mod value_reading;
mod value_writing;
mod well_formed;

pub use crate::entries::EntriesOf;
pub use crate::headed::{HeadReader, HeadedStage, NoHead, headed_after, headed_finish};
pub use crate::kind::EntryKind;
pub use crate::value::ValueOf;

/// Keywords of the extension `u`.
pub mod unicode {
    use crate::entries::EntriesOf;
    use crate::value::ValueOf;
    use icu_locale_core_subtags::unicode::KeyRule;

    /// Keywords: a map from keys to values, listed in byte order of the keys, as `ca-buddhist-nu-thai`.
    pub type Keywords = EntriesOf<KeyRule>;

    /// The value of a keyword: a list of subtags, none of which is `true`, as `islamic-civil` of `ca`.
    pub type Value = ValueOf<KeyRule>;
}

/// Fields of the extension `t`.
pub mod transform {
    use crate::entries::EntriesOf;
    use crate::value::ValueOf;
    use icu_locale_core_subtags::transform::KeyRule;

    /// Fields: a map from keys to values, listed in byte order of the keys, as `h0-hybrid-m0-und`.
    pub type Fields = EntriesOf<KeyRule>;

    /// The value of a field: a list of subtags, none of which is `true`, as `hybrid` of `h0`.
    pub type Value = ValueOf<KeyRule>;
}
