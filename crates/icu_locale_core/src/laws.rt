//! Laws: what holds of tags and of what they prefer, beside the clauses of the calls.
//!
//! Each is the contract of a function, which a proof has by calling it; it does not allocate. docs/tags.md, "Laws",
//! lists them.

/// Of the grammar: meanings, faults, normal text.
pub mod grammar {
    pub use icu_locale_core_grammar::laws::{
        answers_are_right, case_is_ignored, meaning_or_fault, meanings_are_normal, never_both,
        normal_pieces_mean, one_fault, one_meaning, pieces_are_plain, pieces_make_the_text,
        sets_and_maps, singletons_rise, stages_name_faults, tags_are_read, text_reads_back,
        text_tells_meanings,
    };
    pub use icu_locale_core_grammar::order_laws::{part_orders_are_total, tag_orders_are_total};
    pub use icu_locale_core_grammar::part_laws::{
        data_locales_are_answered, entries_stand_alone, fronts_are_one, languages_are_answered,
        parts_are_plain, parts_are_read, parts_have_one_meaning, parts_read_back,
        single_tags_are_answered, subdivisions_are_spelled,
    };
    pub use icu_locale_core_grammar::preference_laws::{
        alike_tags_prefer_alike, preferences_join, preferences_read_back,
    };
}

// Of subtags, one or many.
pub use icu_locale_core_subtags::laws as subtags;

// Of variants, attributes and private subtags.
pub use icu_locale_core_subtag_lists::laws as sets;

// Of keywords, fields and their values.
pub use icu_locale_core_keywords_fields::laws as entries;

// Of extensions.
pub use icu_locale_core_extensions::laws as extensions;

// Of language identifiers.
pub use icu_locale_core_langid::laws as language_identifiers;

/// Of the readers of one variant and one keyword.
pub mod single {
    pub use icu_locale_core_langid::single::laws::{modes_agree, modes_are_answered};
}

// Of whole locales.
pub use icu_locale_core_locale::laws as locales;

// Of keywords with a type of their own.
pub use icu_locale_core_preference_keywords::laws as keywords;

// Of preferences and data locales.
pub mod preferences;
