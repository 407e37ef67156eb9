//! Symbols of currencies, and how a currency is written.

ghost use Rattle.std.specs.Prelude.{◌≡◌};
ghost use Rattle.std.specs.Option.{option_copied};
ghost use Rattle.icu_dimension.specs.ProvidedUnits.{written_as};

use icu_dimension_affixes::LetterEnds;
use icu_dimension_fractions::CurrencyCode;
use std::marker::Model;

/// The symbol of a currency: `US$`, whose first end is a letter.
#[derive(Debug, Drop)]
pub struct CurrencySymbol {
    /// How the currency is written.
    pub text: String,
    /// Which ends of the text are letters.
    pub ends: LetterEnds,
}

impl Model for CurrencySymbol {
    ghost use Rattle.std.specs.Prelude.{string_bytes};
    ghost use Rattle.icu_dimension.specs.ProvidedUnits.{SymbolText};

    ghost Value = { SymbolText };

    ghost view = { λ s. record { text = string_bytes s.text; ends = s.ends } };
}

/// How a currency is written: by its symbol, or by its code. The text is borrowed.
#[derive(Clone, Copy, Debug)]
pub struct CurrencyName<'l> {
    /// The symbol or the code.
    pub text: &'l str,
    /// Which ends of the text are letters.
    pub ends: LetterEnds,
}

impl<'l> CurrencyName<'l> {
    /// The symbol, or where there is none the code, both of whose ends are letters: `US$` or `USD`. It does not
    /// allocate.
    pub fn new(symbol: Option<&'l CurrencySymbol>, code: &'l CurrencyCode) -> Self
        ensures text { result.text.now ≡ (written_as (option_copied symbol.entry) code.now).text }
        ensures ends { result.ends ≡ (written_as (option_copied symbol.entry) code.now).ends }
    {
        match symbol {
            Some(symbol) => CurrencyName {
                text: symbol.text.as_str(),
                ends: symbol.ends,
            },
            None => CurrencyName {
                text: code.as_str(),
                ends: LetterEnds {
                    first: true,
                    last: true,
                },
            },
        }
    }
}
