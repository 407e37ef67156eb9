//! Equality, hash and orders of locales.

ghost use Rattle.std.specs.Prelude.{◌≡◌};
ghost use Rattle.std.specs.Cmp.{partial_equiv_from_equiv};
ghost use Rattle.writeable.specs.Order.{byte_order};
ghost use Rattle.icu_locale_core_grammar.specs.NormalText.{normal_text};
ghost use Rattle.icu_locale_core_grammar.specs.TagOrder.{tag_cmp};
ghost use Rattle.icu_locale_core_locale.specs.SameLocale.{same_locale, locale_fed};
ghost use Rattle.icu_locale_core_locale.specs.SameLocaleLaws.{locale_equiv, locale_alike};

use crate::locale::Locale;
use std::cmp::Ordering;
use std::hash::{Hash, Hasher};
use writeable::strict_cmp;

impl PartialEq for Locale {
    ghost eq = { same_locale };

    ghost laws = { partial_equiv_from_equiv locale_equiv };

    fn eq(&self, other: &Self) -> bool {
        self.id == other.id && self.extensions == other.extensions
    }
}

impl Eq for Locale {
    ghost laws = { locale_equiv };
}

impl Hash for Locale {
    ghost hash_input = { locale_fed };

    ghost respects_eq = { locale_alike };

    fn hash<H: Hasher>(&self, state: &mut H) {
        self.id.hash(state);
        self.extensions.hash(state);
    }
}

impl Locale {
    /// The order of two locales, part by part: the language part, then the extensions. It does not allocate.
    ///
    /// `en-US-u-nu-thai` before `en-Latn`, since no script comes before one. `Equal` exactly where they are equal.
    pub fn total_cmp(&self, other: &Self) -> Ordering
        ensures { result ≡ tag_cmp self.now other.now }
    {
        self.id
            .total_cmp(&other.id)
            .then(self.extensions.total_cmp(&other.extensions))
    }

    /// The byte order of the text against these bytes; the text is not built, and it does not allocate.
    ///
    /// `en-US` is `Greater` than `en+`, and `Less` than `en-US-x`.
    #[tactic(auto, using(writeable::proofs::AnnotatedTextLemmas::text_of_bytes))]
    pub fn strict_cmp(&self, other: &[u8]) -> Ordering
        ensures { result ≡ byte_order (normal_text self.now) other.now }
    {
        strict_cmp(self, other)
    }
}
