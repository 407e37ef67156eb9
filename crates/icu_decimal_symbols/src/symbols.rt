//! What a locale writes numbers with.

ghost use Rattle.std.specs.Prelude.{◌≡◌, IfOk, IsOk};
ghost use Rattle.std.specs.Cmp.{decided, partial_equiv_from_equiv};
ghost use Rattle.icu_decimal_symbols.specs.Symbols.{HasNoText, english_symbols};
ghost use Rattle.icu_decimal_symbols.specs.SameSymbols.{same_symbols};
ghost use Rattle.icu_decimal_symbols.specs.SameSymbolsLaws.{same_symbols_decides};

use crate::grouping_sizes::GroupingSizes;
use crate::strings::{DecimalSymbolStrsBuilder, DecimalSymbolsStrs};
use std::alloc::{AllocError, Global};
use std::marker::Model;
use std::ops::Deref;
use tinystr::TinyAsciiStr;

/// What a locale writes numbers with: the texts around and between the digits, and where groups end. In English they are
/// `-`, `+`, `.`, `,`, `latn` and the sizes 3, 3, 1.
#[derive(Debug, Drop)]
pub struct DecimalSymbols {
    /// The affixes, the separators and the numbering system: in English `-`, `+`, `.`, `,` and `latn`.
    pub strings: DecimalSymbolsStrs,
    /// Where groups end: in English 3, 3, 1.
    pub grouping_sizes: GroupingSizes,
}

impl Model for DecimalSymbols {
    ghost use Rattle.icu_decimal_symbols.specs.Symbols.{Symbols};

    ghost Value = { Symbols };

    ghost view = { λ s. record { strings = s.strings; grouping_sizes = s.grouping_sizes } };
}

/// The texts: `symbols.decimal_separator()` is `.` in English. It does not allocate.
impl Deref for DecimalSymbols {
    type Target = DecimalSymbolsStrs;

    ghost deref_gives = { λ symbols strings. strings ≡ symbols.strings };

    fn deref(&self) -> &DecimalSymbolsStrs {
        &self.strings
    }
}

impl PartialEq for DecimalSymbols {
    ghost eq = { same_symbols };

    ghost laws = { partial_equiv_from_equiv (decided same_symbols same_symbols_decides) };

    fn eq(&self, other: &Self) -> bool {
        self.strings == other.strings && self.grouping_sizes == other.grouping_sizes
    }
}

impl Eq for DecimalSymbols {
    ghost laws = { decided same_symbols same_symbols_decides };
}

// The texts of English.
fn english_texts(alloc: Global) -> Result<DecimalSymbolStrsBuilder, AllocError>
    ensures { IfOk result (λ texts. texts ≡ english_symbols.strings) }
{
    let minus_sign_prefix = String::from_str(alloc, "-")?;
    let plus_sign_prefix = String::from_str(alloc, "+")?;
    let decimal_separator = String::from_str(alloc, ".")?;
    let grouping_separator = String::from_str(alloc, ",")?;
    Ok(DecimalSymbolStrsBuilder {
        minus_sign_prefix,
        minus_sign_suffix: String::new(alloc),
        plus_sign_prefix,
        plus_sign_suffix: String::new(alloc),
        decimal_separator,
        grouping_separator,
        numsys: latin(),
    })
}

// The numbering system of English.
fn latin() -> TinyAsciiStr<8>
    ensures { result ≡ english_symbols.strings.numsys }
{
    match TinyAsciiStr::try_from_str("latn") {
        Ok(system) => system,
        Err(_) => unreachable!(),
    }
}

impl DecimalSymbols {
    /// The symbols of English: `-`, `+`, `.`, `,`, `latn`, and the sizes 3, 3, 1.
    ///
    /// `AllocError`: out of memory.
    pub fn new_en_for_testing(alloc: Global) -> Result<Self, AllocError>
        ensures { IfOk result (λ symbols. symbols ≡ english_symbols) }
    {
        let texts = english_texts(alloc)?;
        Ok(DecimalSymbols {
            strings: texts.build(),
            grouping_sizes: GroupingSizes {
                primary: 3,
                secondary: 3,
                min_grouping: 1,
            },
        })
    }

    /// A copy of the symbols: of those of English `-`, `+`, `.`, `,`, `latn` and 3, 3, 1. `AllocError`: out of memory.
    /// It does not allocate where the six texts are empty.
    pub fn try_clone(&self) -> Result<Self, AllocError>
        ensures succeeds { HasNoText self.now.strings → IsOk result }
        ensures value { IfOk result (λ symbols. symbols ≡ self.now) }
    {
        let strings = self.strings.try_clone()?;
        Ok(DecimalSymbols {
            strings,
            grouping_sizes: self.grouping_sizes,
        })
    }
}
