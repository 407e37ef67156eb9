//! A reader of what people type of numbers with a unit, lenient where it can be, and else exact.

ghost use Rattle.std.specs.Prelude.{◌≡◌, ◌⊎◌, true, None, Some, IsErrOf, is_some};
ghost use Rattle.icu_decimal.specs.PlainReading.{IsAnswered, decimal, not_written};
ghost use Rattle.icu_dimension_affixes.specs.UnitReading.{HasManyBetween};
ghost use Rattle.icu_dimension_lenient.specs.OwnUnitTexts.{is_own_unit_text};
ghost use Rattle.locale_numbers_formatter.specs.TypedUnits.{MayAllocateTyped, arabic_unit_by, lenient_unit_reading, typed_unit_by, unit_reading_by};
ghost use Rattle.locale_numbers_formatter.specs.HeldTypedUnits.{leniently};
ghost use Rattle.icu_dimension_lenient.specs.UnitReadings.{unit_reading};

use crate::asked_unit_reader::AskedUnitReader;
use fixed_decimal::Decimal;
use icu_decimal::error::ReadError;
use icu_decimal_lenient::NativeReader;
use icu_dimension_lenient::{LenientUnitReader, add_reading, found_reading};
use std::alloc::Global;
use std::marker::Model;

// What reads the texts.
#[derive(Drop)]
pub(crate) enum TypedUnitKind<'a> {
    // Exactly, and else leniently.
    Leniently(LenientUnitReader<'a>),
    // Only exactly, where texts can't be read leniently.
    Exactly(AskedUnitReader<'a>),
}

// A reader of what people type of numbers with a unit, lenient where it can be, and else exact: that of English, `€` and
// `EUR` reads `€1.50`, `1.5` and `EUR 1.5`.
#[derive(Drop)]
pub(crate) struct TypedUnitReader<'a> {
    reader: TypedUnitKind<'a>,
}

impl<'a> Model for TypedUnitReader<'a> {
    ghost use Rattle.locale_numbers_formatter.specs.TypedUnits.{TypedTexts};
    ghost use Rattle.locale_numbers_formatter.specs.HeldTypedUnits.{typed_unit_held};

    ghost Value = { TypedTexts };

    ghost view = { λ s. typed_unit_held s.reader };
}

impl<'a> TypedUnitReader<'a> {
    // The reader of typed texts. It does not allocate.
    pub(crate) fn leniently(reader: LenientUnitReader<'a>) -> Self
        ensures { result ≡ leniently reader.entry }
    {
        TypedUnitReader {
            reader: TypedUnitKind::Leniently(reader),
        }
    }

    // The reader of texts that can't be read leniently: it reads what the formatter writes, and nothing else. It does
    // not allocate.
    pub(crate) fn exactly(reader: AskedUnitReader<'a>) -> Self
        ensures { result ≡ record { reader = reader.entry; folded = None } }
    {
        TypedUnitReader {
            reader: TypedUnitKind::Exactly(reader),
        }
    }

    // What the formatter writes.
    fn read_exactly(&self, alloc: Global, text: &str) -> Result<Decimal, ReadError>
        ensures memory { IsErrOf result ReadError.Memory → HasManyBetween self.now.reader text.now }
        ensures reading { IsAnswered result (unit_reading self.now.reader text.now) }
    {
        match &self.reader {
            TypedUnitKind::Leniently(reader) => reader.read_exactly(alloc, text),
            TypedUnitKind::Exactly(reader) => reader.read(alloc, text),
        }
    }

    // Any other text: where texts can't be read leniently it is unreadable.
    fn read_leniently(&self, alloc: Global, text: &str) -> Result<Decimal, ReadError>
        ensures memory { IsErrOf result ReadError.Memory → is_some self.now.folded ≡ true }
        ensures reading { IsAnswered result (typed_unit_by self.now.reader.tables self.now.folded text.now) }
    {
        match &self.reader {
            TypedUnitKind::Leniently(reader) => reader.read_leniently(alloc, text),
            TypedUnitKind::Exactly(_) => Err(ReadError::Unreadable),
        }
    }

    // A text with the separators of Arabic digits: where texts can't be read leniently it is none.
    pub(crate) fn read_arabic(&self, alloc: Global, text: &str) -> Result<Decimal, ReadError>
        ensures { IsAnswered result (arabic_unit_by self.now.reader.tables self.now.folded text.now) }
    {
        match &self.reader {
            TypedUnitKind::Leniently(reader) => reader.read_with_arabic(alloc, text),
            TypedUnitKind::Exactly(_) => Err(ReadError::NotWritten),
        }
    }

    // The number that was typed: of English, `€` and `EUR` 1.5 of `€1.5`, `1.5` and `1.5 EUR`. Native digits are not
    // read.
    //
    // `Unreadable`: texts can't be read, or not leniently and no number is written so. `NotWritten`: it is a text of no
    // number, or of two. `Memory`: out of memory. It allocates where the text has more than sixteen digits, or is folded.
    #[tactic(auto, using(crate::proofs::LenientUnitLemmas::exactly_read, crate::proofs::LenientUnitLemmas::exactly_unread, crate::proofs::LenientUnitLemmas::typed_read, crate::proofs::LenientUnitLemmas::exactly_allocates, crate::proofs::LenientUnitLemmas::typed_allocates))]
    pub(crate) fn read(&self, alloc: Global, text: &str) -> Result<Decimal, ReadError>
        ensures memory { IsErrOf result ReadError.Memory → MayAllocateTyped self.now text.now }
        ensures reading { IsAnswered result (lenient_unit_reading self.now text.now) }
    {
        match self.read_exactly(alloc, text) {
            Ok(number) => Ok(number),
            Err(ReadError::NotWritten) => self.read_leniently(alloc, text),
            Err(ReadError::Unreadable) => Err(ReadError::Unreadable),
            Err(ReadError::Memory) => Err(ReadError::Memory),
        }
    }

    // A number that was read leniently, and whether the formatter writes it so, under any grouping. Where texts can't be
    // read leniently, none was.
    fn own_text(&self, number: Decimal, text: &str) -> (Decimal, bool)
        requires { is_some self.now.folded ≡ true }
        ensures number { result.0 ≡ number }
        ensures own { result.1 ≡ is_own_unit_text self.now.reader text.now number }
    {
        match &self.reader {
            TypedUnitKind::Leniently(reader) => reader.own_text(number, text),
            TypedUnitKind::Exactly(_) => unreachable!(),
        }
    }

    // A number that was read leniently, by this reader and by another one.
    #[tactic(auto, using(crate::proofs::LenientUnitLemmas::read_own, crate::proofs::LenientUnitLemmas::read_unless, icu_dimension_lenient::proofs::AgreementSteps::answered_after, icu_dimension_lenient::proofs::AgreementSteps::refused_after))]
    fn unless_other(
        &self,
        alloc: Global,
        other: &TypedUnitReader<'_>,
        number: Decimal,
        text: &str,
    ) -> Result<Decimal, ReadError>
        requires none { unit_reading self.now.reader text.now ≡ not_written }
        requires typed { typed_unit_by self.now.reader.tables self.now.folded text.now ≡ decimal number }
        ensures memory { IsErrOf result ReadError.Memory → MayAllocateTyped other.now text.now }
        ensures reading { IsAnswered result (unit_reading_by self.now (Some other.now) text.now) }
    {
        let (number, is_own) = self.own_text(number, text);
        if is_own {
            return Ok(number);
        }
        match add_reading(Some(number), other.read(alloc, text)) {
            Ok(found) => found_reading(found),
            Err(error) => Err(error),
        }
    }

    // A text that the formatter does not write, by this reader and by another one.
    #[tactic(auto, using(crate::proofs::LenientUnitLemmas::unread_typed, crate::proofs::LenientUnitLemmas::read_other, crate::proofs::LenientUnitLemmas::typed_allocates))]
    fn read_unless(
        &self,
        alloc: Global,
        other: &TypedUnitReader<'_>,
        text: &str,
    ) -> Result<Decimal, ReadError>
        requires { unit_reading self.now.reader text.now ≡ not_written }
        ensures memory { IsErrOf result ReadError.Memory
            → MayAllocateTyped self.now text.now ⊎ MayAllocateTyped other.now text.now }
        ensures reading { IsAnswered result (unit_reading_by self.now (Some other.now) text.now) }
    {
        match self.read_leniently(alloc, text) {
            Ok(number) => self.unless_other(alloc, other, number, text),
            Err(ReadError::NotWritten) => other.read(alloc, text),
            Err(ReadError::Unreadable) => Err(ReadError::Unreadable),
            Err(ReadError::Memory) => Err(ReadError::Memory),
        }
    }

    // As `read`, and by another reader, where the text is not what the formatter writes, under any grouping: by the
    // reader of `km-u-nu-khmr` and `USD` and that of `km-u-nu-latn`, `1,234.5 USD` is 1234.5, and `1,234 USD` is refused.
    //
    // `Unreadable`: as `read`, and where no number is written so by this reader and the other one answers so.
    // `NotWritten`: it is a text of no number by either, or it is ambiguous: this reader reads one number, the other
    // one another. `Memory`: out of memory. It allocates as `read`, and as `read` of the other reader where that is
    // asked.
    #[tactic(auto, using(crate::proofs::LenientUnitLemmas::read_exactly, crate::proofs::LenientUnitLemmas::unread_exactly, crate::proofs::LenientUnitLemmas::exactly_allocates))]
    pub(crate) fn read_or(
        &self,
        alloc: Global,
        other: &TypedUnitReader<'_>,
        text: &str,
    ) -> Result<Decimal, ReadError>
        ensures memory { IsErrOf result ReadError.Memory
            → MayAllocateTyped self.now text.now ⊎ MayAllocateTyped other.now text.now }
        ensures reading { IsAnswered result (unit_reading_by self.now (Some other.now) text.now) }
    {
        match self.read_exactly(alloc, text) {
            Ok(number) => Ok(number),
            Err(ReadError::NotWritten) => self.read_unless(alloc, other, text),
            Err(ReadError::Unreadable) => Err(ReadError::Unreadable),
            Err(ReadError::Memory) => Err(ReadError::Memory),
        }
    }
}
