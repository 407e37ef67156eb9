//! What a locale prefers, and its keywords with a type of their own.
//!
//! `en-US-u-nu-thai-rg-gbeng` prefers the language `en`, the region `US`, the region override `gbeng` and the numbering
//! system `thai`. A keyword's type is a [`PreferenceKey`]: it knows its key, and which values state it.

pub use crate::keywords::numbering_system;
pub use crate::locale_preferences::LocalePreferences;
pub use icu_locale_core_preference_keywords::PreferenceKey;

/// The extensions that say what is preferred.
pub mod extensions {
    /// The extension `u`: its keywords, each with a type.
    pub mod unicode {
        /// Why a keyword is refused: its value states no preference of the type.
        pub mod errors {
            pub use icu_locale_core_preference_keywords::PreferencesParseError;
        }

        /// Each keyword: `FirstDay` of `fw`, `CurrencyType` of `cu`, `NumberingSystem` of `nu` and the others.
        pub mod keywords {
            pub use icu_locale_core_preference_keywords::{
                CollationCaseFirst, CollationNumericOrdering, CurrencyFormatStyle, CurrencyType,
                EmojiPresentationStyle, FirstDay, LineBreakStyle, LineBreakWordHandling,
                MeasurementSystem, NumberingSystem, RegionOverride, RegionalSubdivision,
                WordKeyword,
            };
        }
    }
}
