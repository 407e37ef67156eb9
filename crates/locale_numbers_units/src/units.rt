//! The units of a book.

ghost use Rattle.std.specs.Prelude.{◌≡◌, ◌||◌, true, IfErr, IfOk, IsErrOf};
ghost use Rattle.std.specs.Option.{option_copied};
ghost use Rattle.std.specs.Str.{bytes_eq};
ghost use Rattle.serde_json.specs.View.{items_view};
ghost use Rattle.locale_numbers_tables.specs.Keys.{same_key, table_at};
ghost use Rattle.locale_numbers_tables.specs.Telling.{IsTold};
ghost use Rattle.locale_numbers_units.specs.Units.{AreUnits, units_fault, units_may_grow};
ghost use Rattle.locale_numbers_tables.specs.declared.BookError.{BookError};

use crate::amounts::{Accounts, Currencies};
use crate::currency_digits::CurrencyDigits;
use crate::currency_symbols::CurrencySymbols;
use crate::percents::Percents;
use crate::tables::table_of;
use icu_decimal::provider::DataIdentifier;
use icu_dimension::FractionInfo;
use icu_dimension::provider::{AmountPatterns, CurrencySymbol, PercentPattern};
use locale_numbers_tables::{BookError, Seed, Table};
use serde_json::Value;
use std::alloc::Global;
use std::marker::Model;
use tinystr::TinyAsciiStr;

/// The entries of the five arrays that units are, in their order.
#[derive(Drop)]
pub struct UnitArrays {
    pub percents: Vec<Value>,
    pub currencies: Vec<Value>,
    pub accounts: Vec<Value>,
    pub symbols: Vec<Value>,
    pub digits: Vec<Value>,
}

/// The units of a book: what percents and amounts of money are written with.
pub struct Units {
    percents: Table<DataIdentifier, PercentPattern>,
    currencies: Table<DataIdentifier, AmountPatterns>,
    accounts: Table<DataIdentifier, AmountPatterns>,
    symbols: Table<DataIdentifier, CurrencySymbol>,
    digits: Table<TinyAsciiStr<8>, FractionInfo>,
}

impl Model for Units {
    ghost use Rattle.locale_numbers_units.specs.Units.{UnitsTables};

    ghost Value = { UnitsTables };

    ghost view = { λ u. record {
      percents = u.percents.map.entries;
      currencies = u.currencies.map.entries;
      accounts = u.accounts.map.entries;
      symbols = u.symbols.map.entries;
      digits = u.digits.map.entries;
    } };
}

// Units are dropped by one call, as a book is.
impl Drop for Units {
    fn drop(self) {
        let Units {
            percents: _percents,
            currencies: _currencies,
            accounts: _accounts,
            symbols: _symbols,
            digits: _digits,
        } = self;
    }
}

impl Units {
    /// The units that five arrays are, their tables hashed by this seed. Without entries they are units too.
    ///
    /// - Shape to Code: the first faulty entry decides, in the order of the arrays, and in an entry the least number:
    ///   `Unit` of the percents `[["en","","%",null,["",""]]]`.
    /// - Memory: out of memory.
    #[tactic(auto, using(crate::proofs::UnitsLemmas::or_second, crate::proofs::UnitsLemmas::or_third, crate::proofs::UnitsLemmas::or_fourth, crate::proofs::UnitsLemmas::or_fifth))]
    pub fn from_arrays(alloc: Global, seed: Seed, arrays: UnitArrays) -> Result<Units, BookError>
        ensures value { IfOk result
            (AreUnits (items_view arrays.percents.items) (items_view arrays.currencies.items)
            (items_view arrays.accounts.items) (items_view arrays.symbols.items) (items_view arrays.digits.items)) }
        ensures fault { IfErr result
            (λ fault. IsTold
            (units_fault (items_view arrays.percents.items) (items_view arrays.currencies.items)
            (items_view arrays.accounts.items) (items_view arrays.symbols.items) (items_view arrays.digits.items)) fault) }

        // A fault that is found before anything is allocated is never reported as out of memory.
        ensures room { IsErrOf result BookError.Memory
            → units_may_grow (items_view arrays.percents.items) (items_view arrays.currencies.items)
            (items_view arrays.accounts.items) (items_view arrays.symbols.items) (items_view arrays.digits.items) ≡ true }
    {
        let UnitArrays {
            percents,
            currencies,
            accounts,
            symbols,
            digits,
        } = arrays;
        let percents = table_of::<Percents>(alloc, seed, percents)?;
        let currencies = table_of::<Currencies>(alloc, seed, currencies)?;
        let accounts = table_of::<Accounts>(alloc, seed, accounts)?;
        let symbols = table_of::<CurrencySymbols>(alloc, seed, symbols)?;
        match table_of::<CurrencyDigits>(alloc, seed, digits) {
            Ok(digits) => Ok(Units {
                percents,
                currencies,
                accounts,
                symbols,
                digits,
            }),
            Err(fault) => Err(fault),
        }
    }

    /// How percents of a locale and a system, or of none, are written; `None` where no entry is for these. It does not
    /// allocate.
    pub fn percent(&self, id: &DataIdentifier) -> Option<&PercentPattern>
        ensures { option_copied result ≡ table_at same_key id.now self.now.percents }
    {
        self.percents.map.get(id)
    }

    /// How amounts of a locale and a system or a code, or none of these, are written; `None` where no entry is for
    /// these. It does not allocate.
    pub fn currency(&self, id: &DataIdentifier) -> Option<&AmountPatterns>
        ensures { option_copied result ≡ table_at same_key id.now self.now.currencies }
    {
        self.currencies.map.get(id)
    }

    /// How amounts of a locale and a system, or of none, are written in accounting; `None` where no entry is for these.
    /// It does not allocate.
    pub fn account(&self, id: &DataIdentifier) -> Option<&AmountPatterns>
        ensures { option_copied result ≡ table_at same_key id.now self.now.accounts }
    {
        self.accounts.map.get(id)
    }

    /// The symbol that a locale has for a code; `None` where it has none. It does not allocate.
    pub fn symbol(&self, id: &DataIdentifier) -> Option<&CurrencySymbol>
        ensures { option_copied result ≡ table_at same_key id.now self.now.symbols }
    {
        self.symbols.map.get(id)
    }

    /// The digits of a currency, of `JPY` none; `None` where no entry is for the code. It does not allocate.
    pub fn digits(&self, code: &TinyAsciiStr<8>) -> Option<&FractionInfo>
        ensures { option_copied result ≡ table_at bytes_eq code.now self.now.digits }
    {
        self.digits.map.get(code)
    }
}
