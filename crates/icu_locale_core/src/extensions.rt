//! The extensions of a tag: after the language part, each a singleton and its pieces.
//!
//! `en-a-foo-t-de-u-nu-thai-x-bar` has the extensions `a`, `t` and `u`, and the private subtag `bar`. [`Extensions`]
//! has those of a locale, and [`ExtensionType`] names one of them.

pub use icu_locale_core_extensions::{ExtensionType, Extensions};

/// The extension `u`: attributes and keywords, as in `u-foo-nu-thai`.
pub mod unicode {
    pub use icu_locale_core_extensions::Unicode;
    pub use icu_locale_core_keywords_fields::unicode::{Keywords, Value};
    pub use icu_locale_core_preference_keywords::SubdivisionId;
    pub use icu_locale_core_subtag_lists::Attributes;
    pub use icu_locale_core_subtags::unicode::{Attribute, Key, SubdivisionSuffix};
}

/// The extension `t`: a language part and fields, as in `t-de-m0-bgn`.
pub mod transform {
    pub use icu_locale_core_extensions::Transform;
    pub use icu_locale_core_keywords_fields::transform::{Fields, Value};
    pub use icu_locale_core_subtags::transform::Key;
}

/// The private subtags, those after `x`, as in `x-foo-1`.
pub mod private {
    pub use icu_locale_core_subtag_lists::Private;
    pub use icu_locale_core_subtags::private::Subtag;
}

/// Extensions that have no rule of their own, as `a-foo-bar`.
pub mod other {
    pub use icu_locale_core_extensions::Other;
}
