//! Whether a locale reads back from its text.

ghost use Rattle.std.specs.Prelude.{◌↔◌, IsTrue, IfSome};
ghost use Rattle.std.specs.List.{AllByRecursion};
ghost use Rattle.icu_locale_core_grammar.specs.Collections.{Rises, keys_of};
ghost use Rattle.icu_locale_core_grammar.specs.Meaning.{MeansTag};
ghost use Rattle.icu_locale_core_grammar.specs.NormalText.{normal_text};
ghost use Rattle.icu_locale_core_grammar.specs.Pieces.{pieces};
ghost use Rattle.icu_locale_core_grammar.specs.WellFormed.{IsNormalLanguage, IsNormalUnicode, IsNormalTransform, IsNormalOther, AreNormalOthers, IsNormalTag};

use crate::locale::Locale;
use icu_locale_core_extensions::laws::others_are_normal;
use icu_locale_core_extensions::{Other, Transform, Unicode};
use icu_locale_core_langid::LanguageIdentifier;
use icu_locale_core_langid::laws::identifiers_read_back;

// Whether each keyword is well-formed.
fn is_normal_unicode(unicode: &Unicode) -> bool
    ensures { IsTrue result ↔ IsNormalUnicode unicode.now }
{
    let _attributes = unicode.attributes.as_slice(); // for the proof
    unicode.keywords.is_well_formed()
}

// A language part, where there is one, is in normal form.
fn languages_are_normal(language: &Option<LanguageIdentifier>)
    ensures { IfSome language.now IsNormalLanguage }
{
    if let Some(language) = language {
        identifiers_read_back(language);
    }
}

// Whether each field is well-formed.
fn is_normal_transform(transform: &Transform) -> bool
    ensures { IsTrue result ↔ IsNormalTransform transform.now }
{
    languages_are_normal(&transform.lang);
    transform.fields.is_well_formed()
}

// Whether there is a piece: that is all that an extension may lack.
fn is_normal_other(other: &Other) -> bool
    ensures { IsTrue result ↔ IsNormalOther other.now }
{
    others_are_normal(other);
    !other.is_empty()
}

// Whether each extension has a piece.
fn each_is_normal(others: &[Other]) -> bool
    ensures { IsTrue result ↔ AllByRecursion IsNormalOther others.now }
{
    for other in others {
        if !is_normal_other(other) {
            return false;
        }
    }
    true
}

// Whether each singleton is below the next.
fn singletons_rise(others: &[Other]) -> bool
    ensures { IsTrue result ↔ Rises (keys_of others.now) }
{
    others.is_sorted_by(|one, other| one.get_ext_str() < other.get_ext_str())
}

// Whether each extension has a piece, and the singletons rise.
fn are_normal_others(others: &[Other]) -> bool
    ensures { IsTrue result ↔ AreNormalOthers others.now }
{
    each_is_normal(others) && singletons_rise(others)
}

// Whether each part is in normal form.
fn has_normal_parts(locale: &Locale) -> bool
    ensures { IsTrue result ↔ IsNormalTag locale.now }
{
    let extensions = &locale.extensions;
    identifiers_read_back(&locale.id);
    let _private = extensions.private.as_slice(); // for the proof
    is_normal_unicode(&extensions.unicode)
        && is_normal_transform(&extensions.transform)
        && are_normal_others(extensions.other.as_slice())
}

impl Locale {
    /// Whether the text reads back as this locale: true of every locale that was read. It does not allocate.
    ///
    /// The text of a locale that was put together by hand may not be: another extension may have no piece, two of them
    /// may have one singleton or be out of order, as `b-foo-a-bar`, and a subtag of a value may have 2 characters.
    #[tactic(auto, using(crate::proofs::WellFormedLemmas::reads_where_normal))]
    pub fn is_well_formed(&self) -> bool
        ensures { IsTrue result ↔ MeansTag (pieces (normal_text self.now)) self.now }
    {
        has_normal_parts(self)
    }
}
