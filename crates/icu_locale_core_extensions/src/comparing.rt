//! Equality, hash and order of extensions.

ghost use Rattle.std.specs.Prelude.{◌≡◌};
ghost use Rattle.std.specs.Cmp.{partial_equiv_from_equiv};
ghost use Rattle.std.specs.Option.{option_cmp};
ghost use Rattle.icu_locale_core_grammar.specs.TagOrder.{language_cmp, unicode_cmp, transform_cmp, entry_cmp, entries_cmp};
ghost use Rattle.icu_locale_core_extensions.specs.ExtensionsOrder.{extensions_cmp};
ghost use Rattle.icu_locale_core_extensions.specs.SameExtension.{same_unicode, same_transform, same_other, same_extensions, unicode_fed, transform_fed, other_fed, extensions_fed};
ghost use Rattle.icu_locale_core_extensions.specs.SameExtensionLaws.{unicode_equiv, transform_equiv, other_equiv, extensions_equiv, unicode_alike, transform_alike, other_alike, extensions_alike};

use crate::extensions::Extensions;
use crate::other::Other;
use crate::transform::Transform;
use crate::unicode::Unicode;
use icu_locale_core_langid::LanguageIdentifier;
use std::cmp::Ordering;
use std::hash::{Hash, Hasher};

impl PartialEq for Unicode {
    ghost eq = { same_unicode };

    ghost laws = { partial_equiv_from_equiv unicode_equiv };

    fn eq(&self, other: &Self) -> bool {
        self.attributes == other.attributes && self.keywords == other.keywords
    }
}

impl Eq for Unicode {
    ghost laws = { unicode_equiv };
}

impl Hash for Unicode {
    ghost hash_input = { unicode_fed };

    ghost respects_eq = { unicode_alike };

    fn hash<H: Hasher>(&self, state: &mut H) {
        self.attributes.hash(state);
        self.keywords.hash(state);
    }
}

impl Unicode {
    /// The order of two extensions: the attributes, then the keywords; `Equal` exactly where they are equal.
    ///
    /// `u-nu-thai` before `u-foo-nu-latn`, since no attribute comes before one. It does not allocate.
    pub fn total_cmp(&self, other: &Self) -> Ordering
        ensures { result ≡ unicode_cmp self.now other.now }
    {
        self.attributes
            .cmp(&other.attributes)
            .then(self.keywords.cmp(&other.keywords))
    }
}

// The order of two language parts: none comes before some.
fn language_order(one: &Option<LanguageIdentifier>, other: &Option<LanguageIdentifier>) -> Ordering
    ensures { result ≡ option_cmp language_cmp one.now other.now }
{
    match (one, other) {
        (None, None) => Ordering::Equal,
        (None, Some(_)) => Ordering::Less,
        (Some(_), None) => Ordering::Greater,
        (Some(one), Some(other)) => one.total_cmp(other),
    }
}

impl PartialEq for Transform {
    ghost eq = { same_transform };

    ghost laws = { partial_equiv_from_equiv transform_equiv };

    fn eq(&self, other: &Self) -> bool {
        self.lang == other.lang && self.fields == other.fields
    }
}

impl Eq for Transform {
    ghost laws = { transform_equiv };
}

impl Hash for Transform {
    ghost hash_input = { transform_fed };

    ghost respects_eq = { transform_alike };

    fn hash<H: Hasher>(&self, state: &mut H) {
        self.lang.hash(state);
        self.fields.hash(state);
    }
}

impl Transform {
    /// The order of two extensions: the language part, then the fields; `Equal` exactly where they are equal.
    ///
    /// `t-m0-und` before `t-de`, since no language part comes before one. It does not allocate.
    pub fn total_cmp(&self, other: &Self) -> Ordering
        ensures { result ≡ transform_cmp self.now other.now }
    {
        language_order(&self.lang, &other.lang).then(self.fields.cmp(&other.fields))
    }
}

impl PartialEq for Other {
    ghost eq = { same_other };

    ghost laws = { partial_equiv_from_equiv other_equiv };

    fn eq(&self, other: &Self) -> bool {
        self.get_ext_str() == other.get_ext_str() && self.as_slice() == other.as_slice()
    }
}

impl Eq for Other {
    ghost laws = { other_equiv };
}

impl Hash for Other {
    ghost hash_input = { other_fed };

    ghost respects_eq = { other_alike };

    fn hash<H: Hasher>(&self, state: &mut H) {
        self.get_ext_str().hash(state);
        self.as_slice().hash(state);
    }
}

impl Other {
    /// The order of two extensions: the singleton, then the pieces; `Equal` exactly where they are equal.
    ///
    /// `a-foo` before `a-foo-bar`, and both before `b-bar`. It does not allocate.
    pub fn total_cmp(&self, other: &Self) -> Ordering
        ensures { result ≡ entry_cmp self.now other.now }
    {
        self.get_ext_str()
            .cmp(other.get_ext_str())
            .then(self.as_slice().cmp(other.as_slice()))
    }
}

impl PartialEq for Extensions {
    ghost eq = { same_extensions };

    ghost laws = { partial_equiv_from_equiv extensions_equiv };

    fn eq(&self, other: &Self) -> bool {
        self.unicode == other.unicode
            && self.transform == other.transform
            && self.private == other.private
            && self.other.as_slice() == other.other.as_slice()
    }
}

impl Eq for Extensions {
    ghost laws = { extensions_equiv };
}

impl Hash for Extensions {
    ghost hash_input = { extensions_fed };

    ghost respects_eq = { extensions_alike };

    fn hash<H: Hasher>(&self, state: &mut H) {
        self.unicode.hash(state);
        self.transform.hash(state);
        self.private.hash(state);
        self.other.as_slice().hash(state);
    }
}

// The order of two lists of extensions: by their first difference; where one begins the other, the shorter is less.
fn others_order(others: &[Other], against: &[Other]) -> Ordering
    ensures { result ≡ entries_cmp others.now against.now }
{
    for (one, other) in others.iter().zip(against) {
        let order = one.total_cmp(other);
        if order.is_ne() {
            return order;
        }
    }
    others.len().cmp(&against.len())
}

impl Extensions {
    /// The order of two values, part by part: `u`, `t`, the private subtags, all others. It does not allocate.
    ///
    /// `u-nu-latn` before `u-nu-thai`, and `t-de` before `u-foo`, which has an attribute. `Equal` exactly where they
    /// are equal.
    pub fn total_cmp(&self, other: &Self) -> Ordering
        ensures { result ≡ extensions_cmp self.now other.now }
    {
        self.unicode
            .total_cmp(&other.unicode)
            .then(self.transform.total_cmp(&other.transform))
            .then(self.private.cmp(&other.private))
            .then(others_order(self.other.as_slice(), other.other.as_slice()))
    }
}
