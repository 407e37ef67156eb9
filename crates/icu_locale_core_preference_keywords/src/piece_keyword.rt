//! Keywords whose values are one subtag: a numbering system, a subdivision, a currency.

ghost use Rattle.std.specs.Prelude.{◌≡◌, ⊤, [], ◌∷◌};
ghost use Rattle.icu_locale_core_preference_keywords.specs.TypedKeywords.{IsOwnPiece, IsReading};

use crate::error::PreferencesParseError;
use crate::one_piece::OnePiece;
use crate::preference_key::PreferenceKey;
use icu_locale_core_keywords_fields::unicode::Value;
use icu_locale_core_subtags::unicode::Key;
use std::alloc::{AllocError, Global};
use std::fmt;
use std::marker::{Model, PhantomData};
use std::ops::Deref;

/// Which keyword the value is of: `nu`, `sd`, `rg` or `cu`.
pub trait PieceKey {
    ghost use Rattle.std.specs.Prelude.{◌≡◌, ℕ, List, Some};

    // the key of the keyword
    ghost keyword: { List ℕ };

    /// The key: `rg` of `RegionOverride`. It does not allocate.
    fn key() -> Option<Key>
        ensures { result ≡ Some keyword };

    /// The names of the type with this key and of its field, as `Debug` shows them.
    fn names() -> (&'static str, &'static str);
}

/// The value of a keyword that is one subtag, and what it spells: `thai` of `nu-thai`. Source: UTS 35, section 3.6.1.
#[derive_where(Copy)]
#[derive_where(PartialEq, Eq, Hash; P)]
pub struct PieceKeyword<K: PieceKey, P: OnePiece> {
    pub(crate) own: P,
    #[derive_where(skip)]
    key: PhantomData<K>,
}

impl<K: PieceKey, P: OnePiece> Model for PieceKeyword<K, P> {
    ghost use Rattle.icu_locale_core_preference_keywords.specs.TypedKeywords.{IsOwnPiece};

    ghost Value = { P };

    ghost view = { λ s. s.own };

    ghost invariant = { λ s. IsOwnPiece P.stated P.piece s.own };

    ghost inverse = { λ v. record { own = v; key = record {} } };
}

impl<K: PieceKey, P: OnePiece> PieceKeyword<K, P> {
    // The keyword that holds what a value of one subtag states.
    pub(crate) fn holding(own: P) -> Self
        requires { IsOwnPiece P.stated P.piece own }
        ensures { result ≡ own }
    {
        PieceKeyword {
            own,
            key: PhantomData,
        }
    }
}

impl<K: PieceKey, P: OnePiece> Clone for PieceKeyword<K, P> {
    ghost is_clone = { λ s t. t ≡ s };

    ghost is_infallible = { λ _. ⊤ };

    fn clone(&self) -> Result<Self, AllocError> {
        Ok(PieceKeyword {
            own: self.own,
            key: PhantomData,
        })
    }
}

/// A value of one subtag that spells a P states it: `ustx` a subdivision.
impl<K: PieceKey, P: OnePiece> PreferenceKey for PieceKeyword<K, P> {
    ghost keyword = { K.keyword };

    ghost stated = { P.stated };

    ghost written = { λ own. P.piece own ∷ [] };

    fn unicode_extension_key() -> Option<Key> {
        K::key()
    }

    fn unicode_extension_value(&self, alloc: Global) -> Result<Option<Value>, AllocError> {
        let subtag = self.own.subtag();
        Ok(Some(Value::from_subtag(alloc, Some(subtag))?))
    }

    fn try_from_value(value: &Value) -> Result<Self, PreferencesParseError> {
        let own = P::stated_in(value).ok_or(PreferencesParseError::InvalidKeywordValue)?;
        Ok(PieceKeyword {
            own,
            key: PhantomData,
        })
    }
}

/// What the one subtag of the value spells: a `NumberingSystem` of `thai`, a `RegionOverride` of `gbeng`. Other values,
/// as `thai-latn` and the empty one, are `InvalidKeywordValue`. It does not allocate.
impl<K: PieceKey, P: OnePiece> TryFrom<&Value> for PieceKeyword<K, P> {
    type Error = PreferencesParseError;

    ghost try_from_gives = { λ value r. IsReading (P.stated value.now) r };

    fn try_from(value: &Value) -> Result<Self, PreferencesParseError> {
        Self::try_from_value(value)
    }
}

/// What the subtag spells: of `gbeng` the region `GB` and the suffix `eng`. It does not allocate.
impl<K: PieceKey, P: OnePiece> Deref for PieceKeyword<K, P> {
    type Target = P;

    ghost deref_gives = { λ s own. own ≡ s };

    fn deref(&self) -> &P {
        &self.own
    }
}

/// The type's name and what it holds: `RegionOverride { id: "gbeng" }`.
impl<K: PieceKey, P: OnePiece + fmt::Debug> fmt::Debug for PieceKeyword<K, P> {
    fn fmt<W: fmt::Write>(&self, f: &mut fmt::Formatter<W>) -> fmt::Result {
        let (name, field) = K::names();
        f.debug_struct(name).field(field, &self.own).finish()
    }
}
