//! The two kinds of entries: keywords of `u`, fields of `t`.

ghost use Rattle.std.specs.Prelude.{true, false};

use icu_locale_core_subtags::{SubtagRule, transform, unicode};

/// A kind of entries, named by the rule of its keys: `unicode::KeyRule` of keywords, `transform::KeyRule` of fields.
///
/// A field needs a value, and a keyword does not. Source: UTS 35, sections 3.6 and 3.7.
pub trait EntryKind: SubtagRule<2> {
    ghost use Rattle.std.specs.Prelude.{◌≡◌, Bool};
    ghost use Rattle.icu_locale_core_keywords_fields.specs.EntryKind.{IsEntryKind};

    // whether an entry needs a value
    ghost needs: { Bool };

    /// Whether an entry needs a value: a field does, and one without a value shows `true`.
    fn needs_value() -> bool
        ensures { result ≡ needs };

    // keys in lower case, none of which is a piece of a value
    ghost keys: { IsEntryKind Self.accepts Self.normal };
}

impl EntryKind for unicode::KeyRule {
    ghost use Rattle.icu_locale_core_keywords_fields.specs.EntryKind.{keyword_kind};

    ghost needs = { false };

    ghost keys = { keyword_kind };

    fn needs_value() -> bool {
        false
    }
}

impl EntryKind for transform::KeyRule {
    ghost use Rattle.icu_locale_core_keywords_fields.specs.EntryKind.{field_kind};

    ghost needs = { true };

    ghost keys = { field_kind };

    fn needs_value() -> bool {
        true
    }
}
