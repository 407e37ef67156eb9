//! What is kept under a key, and how it is made.

ghost use Rattle.std.specs.Prelude.{◌≡◌, false, None, Some, IfSome, MatchOption, Ok};
ghost use Rattle.locale_numbers_book.specs.FoundFormats.{found_for};
ghost use Rattle.locale_numbers_formatter.specs.FormatTyped.{typed_of};
ghost use Rattle.locale_numbers.specs.FormatterKeys.{finds, finds_rules, rules_for};
ghost use Rattle.locale_numbers.specs.KeptFormatters.{IsMadeFor, IsSameFormatter, KnowsAffixes, KnowsDigits, KnowsReader, KnowsTexts};
ghost use Rattle.locale_numbers.specs.declared.formatter_key.Purpose.{Purpose};

use crate::formatter_key::{FormatterKey, Purpose};
use icu_decimal_direct::{TextTables, UnitTextTables};
use icu_plurals::{PluralRuleType, PluralRulesWithRanges};
use locale_numbers_answers::unit_text_tables;
use locale_numbers_book::{Tables, find_formatter, find_plural_rules, find_second};
use locale_numbers_cache::{Hashed, Maker};
use locale_numbers_formatter::{FormatterKind, LenientNumberReader, NumberFormatter, NumberReader};
use std::alloc::Global;
use std::marker::Model;

// A formatter that is kept, what its texts are put and read with, and the rules that tell categories of its numbers. It
// borrows its tables.
#[derive(Drop)]
pub(crate) struct KeptFormatter<'a> {
    /// What writes numbers.
    pub formatter: NumberFormatter<'a>,
    /// The tables of plain numbers, as texts are put with directly; `None` where they can't be, or were not asked.
    pub texts: Option<TextTables<'a>>,
    /// Those of percents or of amounts, with the affixes in place, in a box, so that one that is made takes little stack;
    /// `None` as above, and where memory was refused.
    pub unit_texts: Option<Box<UnitTextTables<'a>>>,
    /// What reads what it writes; `None` where it is put together for each text.
    pub reader: Option<NumberReader<'a>>,
    /// What people's texts are read by too, where they are read and there is such a thing.
    pub second: Option<NumberFormatter<'a>>,
    /// What reads what people type; `None` where it is put together for each text. It is larger than all the rest, and in
    /// a box, so that a formatter takes little room on the stack.
    pub lenient: Option<Box<LenientNumberReader<'a>>>,
    /// The rules, where categories are told.
    pub rules: Option<PluralRulesWithRanges<'a>>,
}

impl<'a> Model for KeptFormatter<'a> {
    ghost use Rattle.std.specs.Prelude.{◌≡◌, IfSome, Some, is_some, option_map};
    ghost use Rattle.locale_numbers_book.specs.FoundRules.{rules_held};
    ghost use Rattle.locale_numbers_formatter.specs.FormatTyped.{typed_of};
    ghost use Rattle.locale_numbers.specs.KeptFormatters.{Kept, KnowsAffixes, KnowsDigits, KnowsReader, KnowsTexts};

    ghost Value = { Kept };

    ghost view = { λ k. record {
      formatter = k.formatter;
      second = k.second;
      rules = option_map rules_held k.rules;
      keeps_reader = is_some k.reader;
      keeps_typed = is_some k.lenient;
    } };

    ghost invariant = { λ k. KnowsTexts k.formatter k.texts
        × IfSome k.unit_texts (λ kept. KnowsAffixes k.formatter (Some kept.value))
        × IfSome k.unit_texts (λ kept. KnowsDigits k.formatter (Some kept.value))
        × KnowsReader k.formatter k.reader
        × IfSome k.lenient (λ reader. reader.value ≡ typed_of k.formatter k.second) };
}

// What texts are put with directly by a formatter of plain numbers.
fn kept_texts<'a>(formatter: &NumberFormatter<'a>) -> Option<TextTables<'a>>
    ensures { KnowsTexts formatter.now result }
{
    match formatter.kind() {
        FormatterKind::Plain(plain) => {
            let tables = plain.tables();
            TextTables::of(tables.symbols(), tables.digits(), tables.strategy())
        }
        FormatterKind::Compact(_)
        | FormatterKind::CompactDigits(_)
        | FormatterKind::Scientific(_)
        | FormatterKind::Percent(_)
        | FormatterKind::Currency(_) => None,
    }
}

// What reads what a formatter writes, put together now; where memory is refused, for each text.
fn kept_reader<'a>(alloc: Global, formatter: &NumberFormatter<'a>) -> Option<NumberReader<'a>>
    ensures { KnowsReader formatter.now result }
{
    match formatter.reader(alloc) {
        Ok(reader) => Some(reader),
        Err(_) => None,
    }
}

// A value in a box, where memory is not refused. It is apart, so that no second value is on the stack while the first is
// put together.
#[inline(never)]
fn boxed<T: Drop>(alloc: Global, value: T) -> Option<Box<T>>
    ensures { IfSome result (λ kept. kept.value ≡ value) }
{
    match Box::new(alloc, value) {
        Ok(kept) => Some(kept),
        Err(_) => None,
    }
}

// What texts with a unit are put with directly, in a box; `None` where they can't be, and where memory is refused.
fn kept_unit_texts<'a>(
    alloc: Global,
    formatter: &NumberFormatter<'a>,
) -> Option<Box<UnitTextTables<'a>>>
    ensures affixes { IfSome result (λ kept. KnowsAffixes formatter.now (Some kept.value)) }
    ensures digits { IfSome result (λ kept. KnowsDigits formatter.now (Some kept.value)) }
{
    match unit_text_tables(alloc, formatter) {
        Some(texts) => boxed(alloc, texts),
        None => None,
    }
}

// What reads what people type, put together and folded now; where memory is refused, for each text.
fn kept_lenient_reader<'a>(
    alloc: Global,
    formatter: &NumberFormatter<'a>,
    second: &Option<NumberFormatter<'a>>,
) -> Option<Box<LenientNumberReader<'a>>>
    ensures { IfSome result (λ reader. reader.value ≡ typed_of formatter.now second.now) }
{
    match formatter.lenient_reader(alloc, second.as_ref()) {
        Ok(reader) => boxed(alloc, reader),
        Err(_) => None,
    }
}

// A formatter that reads what people type. It is apart, as those for other purposes are, so that they take room on the
// stack in turn; each returns an `Option`, so that none is moved into one afterwards.
#[inline(never)]
fn typed_formatter<'a, T: Tables>(
    tables: &'a T,
    key: &FormatterKey,
    formatter: NumberFormatter<'a>,
) -> Option<KeptFormatter<'a>>
    requires found { found_for key.now.shape (T.book tables.now) key.now.preferences ≡ Ok formatter }
    requires typed { key.now.purpose ≡ Purpose.ReadsTyped }
    ensures { MatchOption result ⊥ (λ kept. IsMadeFor (T.book tables.now) key.now kept) }
{
    let second = find_second(tables, key.preferences, &key.shape, &formatter);
    Some(KeptFormatter {
        formatter,
        texts: None,
        unit_texts: None,
        reader: None,
        second,
        lenient: None,
        rules: None,
    })
}

// A formatter that writes numbers and reads them back.
#[inline(never)]
fn written_formatter<'a>(formatter: NumberFormatter<'a>) -> Option<KeptFormatter<'a>>
    ensures { MatchOption result ⊥ (λ kept. (kept.formatter ≡ formatter.entry) × (kept.rules ≡ None)) }
{
    Some(KeptFormatter {
        formatter,
        texts: None,
        unit_texts: None,
        reader: None,
        second: None,
        lenient: None,
        rules: None,
    })
}

// The formatter of a key that tells categories, by the rules of a type; `None` where the book lacks them.
#[inline(never)]
fn ruled_formatter<'a, T: Tables>(
    tables: &'a T,
    key: &FormatterKey,
    formatter: NumberFormatter<'a>,
    rule_type: PluralRuleType,
) -> Option<KeptFormatter<'a>>
    requires found { found_for key.now.shape (T.book tables.now) key.now.preferences ≡ Ok formatter }
    requires rules { rules_for key.now.purpose ≡ Some rule_type }
    ensures { MatchOption result
        (finds_rules (T.book tables.now) key.now.preferences (rules_for key.now.purpose) ≡ false)
        (λ kept. IsMadeFor (T.book tables.now) key.now kept) }
{
    match find_plural_rules(tables, key.preferences, rule_type) {
        Some(rules) => Some(KeptFormatter {
            formatter,
            texts: None,
            unit_texts: None,
            reader: None,
            second: None,
            lenient: None,
            rules: Some(rules),
        }),
        None => None,
    }
}

// The formatter of a key that was found, with what it needs for its purpose; `None` where the book lacks rules that it
// needs.
fn for_purpose<'a, T: Tables>(
    tables: &'a T,
    key: &FormatterKey,
    formatter: NumberFormatter<'a>,
) -> Option<KeptFormatter<'a>>
    requires { found_for key.now.shape (T.book tables.now) key.now.preferences ≡ Ok formatter }
    ensures { MatchOption result
        (finds_rules (T.book tables.now) key.now.preferences (rules_for key.now.purpose) ≡ false)
        (λ kept. IsMadeFor (T.book tables.now) key.now kept) }
{
    match key.purpose {
        Purpose::Writes => written_formatter(formatter),
        Purpose::ReadsTyped => typed_formatter(tables, key, formatter),
        Purpose::Cardinal => ruled_formatter(tables, key, formatter, PluralRuleType::Cardinal),
        Purpose::Ordinal => ruled_formatter(tables, key, formatter, PluralRuleType::Ordinal),
    }
}

// The formatter of a key; `None` where the book lacks one of its tables, or the rules that it needs.
//
// It has only what its task needs: what reads texts is put together for each, and it is not known whether texts are put
// with it directly. It does not allocate. It is apart, so that what it takes on the stack is free again where readers are
// put together.
#[inline(never)]
pub(crate) fn made_formatter<'a, T: Tables>(
    tables: &'a T,
    key: &FormatterKey,
) -> Option<KeptFormatter<'a>>
    ensures { MatchOption result (finds (T.book tables.now) key.now ≡ false)
        (λ kept. IsMadeFor (T.book tables.now) key.now kept) }
{
    match find_formatter(tables, key.preferences, &key.shape) {
        Ok(formatter) => for_purpose(tables, key, formatter),
        Err(_) => None,
    }
}

// Keeps what texts are put with directly, and what reads what the formatter writes.
#[inline(never)]
fn keep_reader(alloc: Global, kept: &mut KeptFormatter<'_>)
    ensures { IsSameFormatter kept.old kept.new }
{
    kept.texts = kept_texts(&kept.formatter);
    kept.unit_texts = kept_unit_texts(alloc, &kept.formatter);
    kept.reader = kept_reader(alloc, &kept.formatter);
}

// Keeps what reads what people type.
#[inline(never)]
fn keep_lenient_reader(alloc: Global, kept: &mut KeptFormatter<'_>)
    ensures { IsSameFormatter kept.old kept.new }
{
    kept.lenient = kept_lenient_reader(alloc, &kept.formatter, &kept.second);
}

// Keeps what a formatter for a purpose reads with: it is asked whether texts are put with it directly, and what it reads
// with is put together and folded now, which allocates. That is put in its place at once, so that no second formatter is
// on the stack.
fn keep_readers(alloc: Global, purpose: Purpose, kept: &mut KeptFormatter<'_>)
    ensures { IsSameFormatter kept.old kept.new }
{
    match purpose {
        Purpose::Writes => keep_reader(alloc, kept),
        Purpose::ReadsTyped => keep_lenient_reader(alloc, kept),
        Purpose::Cardinal | Purpose::Ordinal => {}
    }
}

// The formatter of a key, which keeps what it reads with; `None` as `made_formatter`.
#[tactic(auto, using(crate::proofs::KeptLemmas::still_made))]
fn kept_formatter<'a, T: Tables>(
    alloc: Global,
    tables: &'a T,
    key: &FormatterKey,
) -> Option<KeptFormatter<'a>>
    ensures { MatchOption result (finds (T.book tables.now) key.now ≡ false)
        (λ kept. IsMadeFor (T.book tables.now) key.now kept) }
{
    let mut made = made_formatter(tables, key);
    if let Some(kept) = &mut made {
        keep_readers(alloc, key.purpose, kept);
    }
    made
}

// One that makes the formatters of keys, with these tables.
#[derive(Drop)]
pub(crate) struct FormatterMaker<'a, T: Tables> {
    /// Where readers are put together.
    pub alloc: Global,
    /// The tables.
    pub tables: &'a T,
}

/// One that is kept puts together once what it reads with.
impl<'a, T: Tables> Maker<Hashed<FormatterKey>, KeptFormatter<'a>> for FormatterMaker<'a, T> {
    ghost use Rattle.locale_numbers.specs.FormatterKeys.{finds};
    ghost use Rattle.locale_numbers.specs.KeptFormatters.{IsMadeFor};

    ghost finds = { λ s key. finds (T.book s.tables.now) key };

    ghost is_made = { λ s key kept. IsMadeFor (T.book s.tables.now) key kept };

    fn make(&self, key: Hashed<FormatterKey>) -> Option<KeptFormatter<'a>> {
        kept_formatter(self.alloc, self.tables, &key.value())
    }
}
