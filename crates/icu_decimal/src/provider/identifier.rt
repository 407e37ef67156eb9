//! The names of tables.

ghost use Rattle.std.specs.Prelude.{◌≡◌};
ghost use Rattle.icu_decimal.specs.Identifiers.{of_locale, of_system, of_both};

use icu_locale_core::DataLocale;
use std::marker::Model;
use tinystr::TinyAsciiStr;

/// The name of a table: a locale, and attributes. The attributes of symbols and of digits are a numbering system, or
/// empty.
///
/// The symbols of `en` for Thai digits are under `en` and `thai`, the digits under `und` and `thai`. After ICU4X's
/// `DataIdentifierBorrowed`.
#[derive(Clone, Copy, Debug, PartialEq, Eq, Hash)]
pub struct DataIdentifier {
    /// The locale, as `en`; `und` where the table does not depend on one.
    pub locale: DataLocale,
    /// The attributes, as `thai`; empty where there are none.
    pub attributes: TinyAsciiStr<8>,
}

impl Model for DataIdentifier {
    ghost use Rattle.icu_decimal.specs.Identifiers.{Identifier};

    ghost Value = { Identifier };

    ghost view = { λ d. record { locale = d.locale; attributes = d.attributes } };

    ghost inverse = { λ v. record { locale = v.locale; attributes = v.attributes } };
}

impl DataIdentifier {
    /// The identifier of a locale without attributes: of `en` it is `en` and the empty text. It does not allocate.
    pub fn for_locale(locale: DataLocale) -> Self
        ensures { result ≡ of_locale locale }
    {
        DataIdentifier {
            locale,
            attributes: TinyAsciiStr::default(),
        }
    }

    /// The identifier of attributes without a locale: of `thai` it is `und` and `thai`. It does not allocate.
    pub fn for_marker_attributes(attributes: TinyAsciiStr<8>) -> Self
        ensures { result ≡ of_system attributes }
    {
        DataIdentifier {
            locale: DataLocale::default(),
            attributes,
        }
    }

    /// The identifier of both: of `thai` and `en` it is `en` and `thai`. It does not allocate.
    pub fn for_marker_attributes_and_locale(attributes: TinyAsciiStr<8>, locale: DataLocale) -> Self
        ensures { result ≡ of_both attributes locale }
    {
        DataIdentifier { locale, attributes }
    }
}
