//! The orders of data locales.

ghost use Rattle.std.specs.Prelude.{◌≡◌};
ghost use Rattle.writeable.specs.Order.{byte_order};
ghost use Rattle.icu_locale_core_grammar.specs.TagOrder.{data_locale_cmp};
ghost use Rattle.icu_locale_core.specs.DataText.{data_text};

use crate::data_locale::DataLocale;
use std::cmp::Ordering;
use writeable::strict_cmp;

impl DataLocale {
    /// The order of two data locales, part by part: language, script, region, variant, subdivision. It does not
    /// allocate.
    ///
    /// None comes before some: `en` before `en-Latn`, and `en-US` before `en-Latn`. `Equal` exactly where they are
    /// equal.
    pub fn total_cmp(&self, other: &Self) -> Ordering
        ensures { result ≡ data_locale_cmp self.now other.now }
    {
        self.language
            .cmp(&other.language)
            .then(self.script.cmp(&other.script))
            .then(self.region.cmp(&other.region))
            .then(self.variant.cmp(&other.variant))
            .then(self.subdivision.cmp(&other.subdivision))
    }

    /// The byte order of the text against these bytes; the text is not built, and it does not allocate.
    ///
    /// `en-US` is `Greater` than `en+`, and `Less` than `en-US-u`.
    #[tactic(auto, using(writeable::proofs::AnnotatedTextLemmas::text_of_bytes))]
    pub fn strict_cmp(&self, other: &[u8]) -> Ordering
        ensures { result ≡ byte_order (data_text self.now) other.now }
    {
        strict_cmp(self, other)
    }
}
