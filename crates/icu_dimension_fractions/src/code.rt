//! Codes of currencies.

ghost use Rattle.std.specs.Prelude.{◌≡◌, false, true, MatchResult};
ghost use Rattle.std.specs.List.{list_all};
ghost use Rattle.std.specs.Char.{is_ascii_uppercase};
ghost use Rattle.icu_dimension_fractions.specs.CurrencyCodes.{code_error_number, is_currency_code};
ghost use Rattle.icu_dimension_fractions.specs.declared.code.CurrencyCodeError.{CurrencyCodeError};

use std::marker::Model;
use thiserror::Error;
use tinystr::TinyAsciiStr;

/// The code of a currency, three letters `A` to `Z`: `CHF` of Swiss francs. Whether ISO 4217 has it is not checked.
///
/// After ICU4X's `CurrencyCode`.
#[derive(Clone, Copy, Debug, PartialEq, Eq, Hash)]
pub struct CurrencyCode {
    text: TinyAsciiStr<3>,
}

impl Model for CurrencyCode {
    ghost use Rattle.std.specs.Prelude.{◌≡◌, ℕ, List, true};
    ghost use Rattle.icu_dimension_fractions.specs.CurrencyCodes.{is_currency_code};

    ghost Value = { List ℕ };

    ghost view = { λ c. c.text };

    ghost invariant = { λ c. is_currency_code c.text ≡ true };

    ghost inverse = { λ v. record { text = v } };
}

/// Why a text is no code of a currency: of `chf` it is `NoCode`.
#[derive(Clone, Copy, Debug, Drop, PartialEq, Eq, Error)]
pub enum CurrencyCodeError {
    /// The text is not three letters `A` to `Z`: `chf` and `CHFR`.
    #[error("no code of a currency")]
    NoCode,
}

impl CurrencyCodeError {
    /// The number of the error: 1 of `NoCode`. It does not allocate.
    pub fn number(&self) -> u8
        ensures { result ≡ code_error_number self.now }
    {
        match self {
            CurrencyCodeError::NoCode => 1,
        }
    }
}

// Whether all bytes are letters `A` to `Z`.
fn are_capitals(bytes: &[u8]) -> bool
    ensures { result ≡ list_all is_ascii_uppercase bytes.now }
{
    bytes.iter().all(|b| b.is_ascii_uppercase())
}

// Whether the bytes are three letters `A` to `Z`.
fn is_code(bytes: &[u8]) -> bool
    ensures { result ≡ is_currency_code bytes.now }
{
    bytes.len() == 3 && are_capitals(bytes)
}

impl CurrencyCode {
    /// The code that these bytes spell: `CHF`. It does not allocate.
    ///
    /// `NoCode`: they are not three letters `A` to `Z`, as `chf`, `CHFR` and `CH`.
    ///
    /// Source: ISO 4217.
    #[tactic(auto, using(crate::proofs::CodeLemmas::code_small))]
    pub fn try_from_utf8(code_units: &[u8]) -> Result<Self, CurrencyCodeError>
        ensures { MatchResult result (λ code. (is_currency_code code_units.now ≡ true) × (code ≡ code_units.now))
            (λ e. (is_currency_code code_units.now ≡ false) × (e ≡ CurrencyCodeError.NoCode)) }
    {
        if !is_code(code_units) {
            return Err(CurrencyCodeError::NoCode);
        }
        Ok(CurrencyCode {
            text: TinyAsciiStr::of_text(code_units),
        })
    }

    /// The code that this text spells, as `try_from_utf8`: `CHF`. The error is that of `try_from_utf8`. It does not
    /// allocate.
    pub fn try_from_str(s: &str) -> Result<Self, CurrencyCodeError>
        ensures { MatchResult result (λ code. (is_currency_code s.now ≡ true) × (code ≡ s.now))
            (λ e. (is_currency_code s.now ≡ false) × (e ≡ CurrencyCodeError.NoCode)) }
    {
        Self::try_from_utf8(s.as_bytes())
    }

    /// The code as a text: `CHF`. It does not allocate.
    pub fn as_str(&self) -> &str
        ensures value { result.now ≡ self.now }
        ensures code { is_currency_code result.now ≡ true }
    {
        self.text.as_str()
    }

    /// The code as the attributes of a table's name: `CHF`. It does not allocate.
    pub fn attributes(self) -> TinyAsciiStr<8>
        ensures { result ≡ self }
    {
        TinyAsciiStr::of_text(self.text.as_utf8())
    }
}
