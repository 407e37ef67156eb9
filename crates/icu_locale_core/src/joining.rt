//! Preferences put over others.

ghost use Rattle.std.specs.Prelude.{◌≡◌};
ghost use Rattle.icu_locale_core_grammar.specs.PreferenceChanges.{joined_preferences};

use crate::locale_preferences::LocalePreferences;

impl LocalePreferences {
    /// Puts each part of the other that is there in place of this one's; the language `und` is not there. It does not
    /// allocate.
    ///
    /// `de-AT` extended by `und-CH-u-sd-chzh` is `de-CH-u-sd-chzh`. This rule is the project's own, and is associative.
    pub fn extend(&mut self, other: LocalePreferences)
        ensures { self.new ≡ joined_preferences self.old other }
    {
        if !other.language.is_unknown() {
            self.language = other.language;
        }
        self.script = other.script.or(self.script);
        self.region = other.region.or(self.region);
        self.variant = other.variant.or(self.variant);
        self.subdivision = other.subdivision.or(self.subdivision);
        self.region_override = other.region_override.or(self.region_override);
    }
}
