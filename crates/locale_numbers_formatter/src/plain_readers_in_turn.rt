//! What people type of plain numbers, read by a reader, and where a second one is given, also by that.

ghost use Rattle.std.specs.Prelude.{◌≡◌, Option, None, Some, IsErrOf, IfSome, option_map};
ghost use Rattle.icu_decimal.specs.HeldTables.{tables_of};
ghost use Rattle.icu_decimal.specs.PlainReading.{IsAnswered};
ghost use Rattle.locale_numbers_formatter.specs.TypedPlain.{MayAllocateInTurn, reading_in_turn};

use fixed_decimal::Decimal;
use icu_decimal::error::ReadError;
use icu_decimal::{DecimalFormatter, DecimalTables, LenientTables};
use icu_decimal_lenient::{TableReader, read_typed, read_typed_or};
use std::alloc::Global;
use std::marker::Model;

// A reader of what people type of plain numbers: a formatter, and its symbols folded, where they are kept.
#[derive(Drop)]
struct TypedPlainReader<'a> {
    formatter: DecimalFormatter<'a>,
    kept: Option<LenientTables<'a>>,
}

impl<'a> Model for TypedPlainReader<'a> {
    ghost use Rattle.std.specs.Prelude.{◌≡◌, IfSome};
    ghost use Rattle.icu_decimal.specs.HeldTables.{tables_of};
    ghost use Rattle.icu_decimal.specs.PlainText.{Tables};

    ghost Value = { Tables };

    ghost view = { λ s. tables_of s.formatter };

    ghost invariant = { λ s. IfSome s.kept (λ kept. kept ≡ tables_of s.formatter) };
}

impl<'a> TypedPlainReader<'a> {
    // Its symbols are folded now, where they are leniently readable. Where memory is refused they are folded for each
    // text.
    fn keeping(alloc: Global, formatter: DecimalFormatter<'a>) -> Self
        ensures { result ≡ tables_of formatter.entry }
    {
        let kept = match LenientTables::new(alloc, formatter.tables()) {
            Ok(kept) => Some(kept),
            Err(_) => None,
        };
        TypedPlainReader { formatter, kept }
    }
}

impl<'a> TableReader for TypedPlainReader<'a> {
    ghost reads_by = { λ tables. tables };

    fn tables(&self) -> &DecimalTables<'_> {
        self.formatter.tables()
    }

    fn read_folded(&self, alloc: Global, text: &str) -> Result<Decimal, ReadError> {
        match &self.kept {
            Some(kept) => kept.read_folded(alloc, text),
            None => self.formatter.tables().read_folded(alloc, text),
        }
    }
}

// What reads the plain texts of a form that people type into: by a reader and, where there is one, by a second one, as
// that of `ar-EG-u-nu-latn` beside that of `ar-EG`.
//
// A clause sees the tables of both.
#[derive(Drop)]
pub(crate) struct PlainReadersInTurn<'a> {
    first: TypedPlainReader<'a>,
    second: Option<TypedPlainReader<'a>>,
}

impl<'a> Model for PlainReadersInTurn<'a> {
    ghost use Rattle.locale_numbers_formatter.specs.TypedPlain.{TablesInTurn};

    ghost Value = { TablesInTurn };

    ghost view = { λ s. record { first = s.first; second = s.second } };
}

impl<'a> PlainReadersInTurn<'a> {
    // A reader by a formatter and a second one, whose symbols are folded once: for a form whose texts are read at each
    // key.
    //
    // Allocates the folded texts of the symbols. Where memory is refused they are folded for each text.
    pub(crate) fn keeping(
        alloc: Global,
        formatter: DecimalFormatter<'a>,
        second: Option<DecimalFormatter<'a>>,
    ) -> Self
        ensures first { result.first ≡ tables_of formatter.entry }
        ensures second { result.second ≡ option_map tables_of second.entry }
    {
        PlainReadersInTurn {
            first: TypedPlainReader::keeping(alloc, formatter),
            second: match second {
                Some(second) => Some(TypedPlainReader::keeping(alloc, second)),
                None => None,
            },
        }
    }

    // The decimal that was typed: by the formatter of `en` 1234.5 of `1234.5`, and 0.5 of `.5`; by that of `hi` 123 of
    // `१२३`.
    //
    // Where there is a second formatter, it is asked too where the text is not what the first one writes under any
    // grouping. `Unreadable`, `NotWritten`: as `read_lenient` of `icu_decimal` by the first formatter, or, where by this
    // the text is no number, by the second one. `NotWritten` also where both read a number, and they differ, as `1,234`
    // in `km-u-nu-khmr`. `Memory`: out of memory. Allocates as `read_lenient` by each formatter that is asked.
    pub(crate) fn read(&self, alloc: Global, text: &str) -> Result<Decimal, ReadError>
        ensures memory { IsErrOf result ReadError.Memory → MayAllocateInTurn self.now text.now }
        ensures reading { IsAnswered result (reading_in_turn self.now text.now) }
    {
        match &self.second {
            Some(second) => read_typed_or(alloc, &self.first, second, text),
            None => read_typed(alloc, &self.first, text),
        }
    }
}
