//! How percents are written.

ghost use Rattle.std.specs.Prelude.{◌≡◌};
ghost use Rattle.std.specs.Result.{result_map_both};
ghost use Rattle.icu_dimension.specs.FoundUnits.{sign_found};

use icu_decimal::provider::{DataError, DecimalSymbols};
use icu_dimension_affixes::UnitPattern;
use icu_dimension_fractions::PercentSign;
use std::marker::Model;

/// How percents are written: in Turkish `%` is before the number.
#[derive(Debug, Drop)]
pub struct PercentPattern {
    /// The percent sign.
    pub sign: String,
    /// The permille sign, where there is one.
    pub permille: Option<String>,
    /// The symbols of percents, where these are others than the locale's.
    pub symbols: Option<DecimalSymbols>,
    /// The texts before and after the number.
    pub pattern: UnitPattern,
}

impl Model for PercentPattern {
    ghost use Rattle.std.specs.Prelude.{option_map, string_bytes};
    ghost use Rattle.icu_dimension.specs.ProvidedUnits.{PercentTexts};

    ghost Value = { PercentTexts };

    ghost view = { λ p. record {
      sign = string_bytes p.sign;
      permille = option_map string_bytes p.permille;
      symbols = p.symbols;
      pattern = p.pattern;
    } };
}

impl PercentPattern {
    // The text of a sign, where there is one.
    pub(crate) fn text_of(&self, sign: PercentSign) -> Result<&str, DataError>
        ensures { result_map_both (λ text. text.now) (λ error. error) result ≡ sign_found sign self.now }
    {
        match sign {
            PercentSign::Percent => Ok(self.sign.as_str()),
            PercentSign::Permille => match &self.permille {
                Some(permille) => Ok(permille.as_str()),
                None => Err(DataError::IdentifierNotFound),
            },
        }
    }
}
