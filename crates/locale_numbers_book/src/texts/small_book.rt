//! The small book of a tag: the entries that its lines can ask for.

ghost use Rattle.std.specs.Prelude.{◌≡◌, ◌++◌, ◌∷◌, [], List, codes, filter, map, option_map, IfOk, OnOk, string_bytes};
ghost use Rattle.std.specs.List.{filter_map};
ghost use Rattle.std.specs.Str.Lines.{lines};
ghost use Rattle.locale_numbers_book.specs.BookText.{array_text, arrays_text, more_text};
ghost use Rattle.locale_numbers_book.specs.EntryFields.{asked_fronts, begins, opening, third_field, under_fronts};
ghost use Rattle.locale_numbers_book.specs.SelectedText.{option_selected_more, selected_by, selected_more, selected_numbers, selected_text, selected_units, selected_with, systems_asked, systems_named, unknown};

use crate::texts::arrays::{put_array, put_whole};
use crate::texts::chain::put_chain;
use crate::texts::entries::{kept, opening_of, put_all_pairs, put_openings, quoted};
use crate::texts::{BookTexts, MoreTexts, NumberTexts, UnitTexts};
use icu_decimal::DecimalFormatterPreferences;
use icu_locale_core::preferences::extensions::unicode::keywords::NumberingSystem;
use std::alloc::{AllocError, Global};

// Appends a text, then the array of the entries that begin so.
fn put_kept(
    alloc: Global,
    out: &mut String,
    before: &str,
    text: &str,
    openings: &[String],
) -> Result<(), AllocError>
    ensures { OnOk result (string_bytes out.new ≡ string_bytes out.old
        ++ (before.now ++ array_text (filter (begins (map string_bytes openings.now)) (lines text.now)))) }
{
    match kept(alloc, text, openings) {
        Ok(entries) => {
            let put = put_array(out, before, entries.as_slice());
            drop(entries);
            put
        }
        Err(refused) => Err(refused),
    }
}

// Appends how the digits begin that entries of symbols name.
fn put_named(alloc: Global, openings: &mut Vec<String>, symbols: &[&str]) -> Result<(), AllocError>
    ensures { OnOk result (map string_bytes openings.new.items ≡ map string_bytes openings.old.items
        ++ map opening (filter_map third_field (map (λ line. line.now) symbols.now))) }
{
    for entry in symbols {
        if let Some(system) = quoted(entry, 5) {
            let front = opening_of(alloc, system)?;
            openings.push(front)?;
        }
    }
    Ok(())
}

// Appends how the digits begin that are asked for: those of these systems, and of those that entries of symbols name.
fn put_systems(
    alloc: Global,
    openings: &mut Vec<String>,
    systems: &[&str],
    symbols: &[&str],
) -> Result<(), AllocError>
    ensures { OnOk result (map string_bytes openings.new.items ≡ map string_bytes openings.old.items
        ++ map opening (systems_named (map (λ system. system.now) systems.now) (map (λ line. line.now) symbols.now))) }
{
    put_openings(alloc, openings, systems)?;
    put_named(alloc, openings, symbols)
}

// Appends the array of the digits that are asked for.
fn put_digits(
    alloc: Global,
    out: &mut String,
    digits: &str,
    systems: &[&str],
    symbols: &[&str],
) -> Result<(), AllocError>
    ensures { OnOk result (string_bytes out.new ≡ string_bytes out.old
        ++ (codes "," ++ array_text (filter (begins (map opening
        (systems_named (map (λ system. system.now) systems.now) (map (λ line. line.now) symbols.now)))) (lines digits.now)))) }
{
    let mut openings = Vec::new(alloc);
    let put = match put_systems(alloc, &mut openings, systems, symbols) {
        Ok(()) => put_kept(alloc, out, ",", digits, openings.as_slice()),
        Err(refused) => Err(refused),
    };
    drop(openings);
    put
}

// Appends the arrays of symbols, which are given, and of the digits that are asked for with them.
fn put_both(
    alloc: Global,
    out: &mut String,
    digits: &str,
    systems: &[&str],
    symbols: &[&str],
) -> Result<(), AllocError>
    ensures { OnOk result (string_bytes out.new ≡ string_bytes out.old
        ++ (codes "[" ++ array_text (map (λ line. line.now) symbols.now))
        ++ (codes "," ++ array_text (filter (begins (map opening
        (systems_named (map (λ system. system.now) systems.now) (map (λ line. line.now) symbols.now)))) (lines digits.now)))) }
{
    put_array(out, "[", symbols)?;
    put_digits(alloc, out, digits, systems, symbols)
}

// Appends the arrays of symbols and of digits.
fn put_symbols(
    alloc: Global,
    out: &mut String,
    texts: &NumberTexts<'_>,
    asked: &[String],
    systems: &[&str],
) -> Result<(), AllocError>
    ensures { OnOk result (string_bytes out.new ≡ string_bytes out.old
        ++ (codes "[" ++ array_text (filter (begins (map string_bytes asked.now)) (lines texts.now.symbols.now)))
        ++ (codes "," ++ array_text (filter (begins (map opening (systems_named (map (λ system. system.now) systems.now)
        (filter (begins (map string_bytes asked.now)) (lines texts.now.symbols.now))))) (lines texts.now.digits.now)))) }
{
    match kept(alloc, texts.symbols, asked) {
        Ok(entries) => {
            let put = put_both(alloc, out, texts.digits, systems, entries.as_slice());
            drop(entries);
            put
        }
        Err(refused) => Err(refused),
    }
}

// Appends the arrays of the tables of numbers.
fn put_numbers(
    alloc: Global,
    out: &mut String,
    texts: &NumberTexts<'_>,
    under: &[String],
    asked: &[String],
    systems: &[&str],
    parents: &[&str],
) -> Result<(), AllocError>
    ensures { OnOk result (string_bytes out.new ≡ string_bytes out.old
        ++ arrays_text (selected_numbers texts.now (map string_bytes under.now) (map string_bytes asked.now)
        (map (λ system. system.now) systems.now) (map (λ line. line.now) parents.now))) }
{
    put_symbols(alloc, out, texts, asked, systems)?;
    put_kept(alloc, out, ",", texts.rules, under)?;
    put_kept(alloc, out, ",", texts.short, asked)?;
    put_kept(alloc, out, ",", texts.long, asked)?;
    put_array(out, ",", parents)?;
    out.push_str("]")
}

// Appends the arrays of units.
fn put_units(
    alloc: Global,
    out: &mut String,
    texts: &UnitTexts<'_>,
    under: &[String],
    asked: &[String],
) -> Result<(), AllocError>
    ensures { OnOk result (string_bytes out.new ≡ string_bytes out.old
        ++ arrays_text (selected_units texts.now (map string_bytes under.now) (map string_bytes asked.now))) }
{
    put_kept(alloc, out, "[", texts.percents, asked)?;
    put_kept(alloc, out, ",", texts.currencies, under)?;
    put_kept(alloc, out, ",", texts.accounts, asked)?;
    put_kept(alloc, out, ",", texts.symbols, under)?;
    put_whole(alloc, out, ",", texts.digits)?;
    out.push_str("]")
}

// Appends a comma and the arrays of more, where there are some.
fn put_more(
    alloc: Global,
    out: &mut String,
    texts: &Option<MoreTexts<'_>>,
    under: &[String],
    asked: &[String],
) -> Result<(), AllocError>
    ensures { OnOk result (string_bytes out.new ≡ string_bytes out.old ++ more_text
        (option_map (λ more. selected_more more (map string_bytes under.now) (map string_bytes asked.now)) texts.now)) }
{
    let Some(texts) = texts else {
        return Ok(());
    };
    put_kept(alloc, out, ",[", texts.ordinals, under)?;
    put_kept(alloc, out, ",", texts.ranges, under)?;
    put_kept(alloc, out, ",", texts.signs, asked)?;
    out.push_str("]")
}

// Appends the arrays of units and of more, for which `und` is asked for too.
fn put_beside(
    alloc: Global,
    out: &mut String,
    units: &UnitTexts<'_>,
    more: &Option<MoreTexts<'_>>,
    under: &mut Vec<String>,
    asked: &mut Vec<String>,
    systems: &[&str],
) -> Result<(), AllocError>
    ensures { OnOk result (string_bytes out.new ≡ string_bytes out.old
        ++ (arrays_text (selected_units units.now (map string_bytes under.old.items ++ under_fronts unknown)
        (map string_bytes asked.old.items ++ asked_fronts unknown (map (λ system. system.now) systems.now)))
        ++ more_text (option_selected_more more.now (map string_bytes under.old.items) (map string_bytes asked.old.items)
        (map (λ system. system.now) systems.now)))) }
{
    put_openings(alloc, under, &["und"])?;
    put_all_pairs(alloc, asked, &["und"], systems)?;
    put_units(alloc, out, units, under.as_slice(), asked.as_slice())?;
    put_more(alloc, out, more, under.as_slice(), asked.as_slice())
}

// Appends the text of the book of numbers alone, with the entries that begin so, and these parents.
fn put_alone(
    alloc: Global,
    out: &mut String,
    texts: &NumberTexts<'_>,
    under: &mut Vec<String>,
    asked: &mut Vec<String>,
    systems: &[&str],
    parents: &[&str],
) -> Result<(), AllocError>
    ensures { OnOk result (string_bytes out.new ≡ string_bytes out.old
        ++ (arrays_text (selected_numbers texts.now (map string_bytes under.old.items) (map string_bytes asked.old.items)
        (map (λ system. system.now) systems.now) (map (λ line. line.now) parents.now)) ++ codes "\n")) }
{
    put_numbers(
        alloc,
        out,
        texts,
        under.as_slice(),
        asked.as_slice(),
        systems,
        parents,
    )?;
    out.push_str("\n")
}

// Appends a bracket, the arrays of numbers and a comma.
fn put_first(
    alloc: Global,
    out: &mut String,
    texts: &NumberTexts<'_>,
    under: &[String],
    asked: &[String],
    systems: &[&str],
    parents: &[&str],
) -> Result<(), AllocError>
    ensures { OnOk result (string_bytes out.new ≡ string_bytes out.old
        ++ (codes "[" ++ arrays_text (selected_numbers texts.now (map string_bytes under.now) (map string_bytes asked.now)
        (map (λ system. system.now) systems.now) (map (λ line. line.now) parents.now)) ++ codes ",")) }
{
    out.push_str("[")?;
    put_numbers(alloc, out, texts, under, asked, systems, parents)?;
    out.push_str(",")
}

// Appends the arrays of units and of more, and what ends them.
fn put_second(
    alloc: Global,
    out: &mut String,
    units: &UnitTexts<'_>,
    more: &Option<MoreTexts<'_>>,
    under: &mut Vec<String>,
    asked: &mut Vec<String>,
    systems: &[&str],
) -> Result<(), AllocError>
    ensures { OnOk result (string_bytes out.new ≡ string_bytes out.old
        ++ (arrays_text (selected_units units.now (map string_bytes under.old.items ++ under_fronts unknown)
        (map string_bytes asked.old.items ++ asked_fronts unknown (map (λ system. system.now) systems.now)))
        ++ more_text (option_selected_more more.now (map string_bytes under.old.items) (map string_bytes asked.old.items)
        (map (λ system. system.now) systems.now)) ++ codes "]\n")) }
{
    put_beside(alloc, out, units, more, under, asked, systems)?;
    out.push_str("]\n")
}

// Appends the text of a book, its units and more, with the entries that begin so, and these parents.
fn put_parts(
    alloc: Global,
    out: &mut String,
    numbers: &NumberTexts<'_>,
    units: &UnitTexts<'_>,
    more: &Option<MoreTexts<'_>>,
    under: &mut Vec<String>,
    asked: &mut Vec<String>,
    systems: &[&str],
    parents: &[&str],
) -> Result<(), AllocError>
    ensures { OnOk result (string_bytes out.new ≡ string_bytes out.old
        ++ (codes "[" ++ arrays_text (selected_numbers numbers.now (map string_bytes under.old.items)
        (map string_bytes asked.old.items) (map (λ system. system.now) systems.now) (map (λ line. line.now) parents.now)) ++ codes ",")
        ++ (arrays_text (selected_units units.now (map string_bytes under.old.items ++ under_fronts unknown)
        (map string_bytes asked.old.items ++ asked_fronts unknown (map (λ system. system.now) systems.now)))
        ++ more_text (option_selected_more more.now (map string_bytes under.old.items) (map string_bytes asked.old.items)
        (map (λ system. system.now) systems.now)) ++ codes "]\n")) }
{
    put_first(
        alloc,
        out,
        numbers,
        under.as_slice(),
        asked.as_slice(),
        systems,
        parents,
    )?;
    put_second(alloc, out, units, more, under, asked, systems)
}

// Appends the text of the book with the entries that begin so, and these parents.
fn put_fronts(
    alloc: Global,
    out: &mut String,
    texts: &BookTexts<'_>,
    under: &mut Vec<String>,
    asked: &mut Vec<String>,
    systems: &[&str],
    parents: &[&str],
) -> Result<(), AllocError>
    ensures { OnOk result (string_bytes out.new ≡ string_bytes out.old
        ++ selected_with texts.now (map string_bytes under.old.items) (map string_bytes asked.old.items)
        (map (λ system. system.now) systems.now) (map (λ line. line.now) parents.now)) }
{
    match &texts.units {
        None => put_alone(alloc, out, &texts.numbers, under, asked, systems, parents),
        Some(units) => put_parts(
            alloc,
            out,
            &texts.numbers,
            units,
            &texts.more,
            under,
            asked,
            systems,
            parents,
        ),
    }
}

// Appends how the entries of these locales begin, and the text of the book with them and these parents.
fn put_locales(
    alloc: Global,
    out: &mut String,
    texts: &BookTexts<'_>,
    locales: &[String],
    systems: &[&str],
    parents: &[&str],
    under: &mut Vec<String>,
    asked: &mut Vec<String>,
) -> Result<(), AllocError>
    requires under { under.old.items ≡ [] }
    requires asked { asked.old.items ≡ [] }
    ensures { OnOk result (string_bytes out.new ≡ string_bytes out.old ++ selected_by texts.now
        (map string_bytes locales.now) (map (λ system. system.now) systems.now) (map (λ line. line.now) parents.now)) }
{
    put_openings(alloc, under, locales)?;
    put_all_pairs(alloc, asked, locales, systems)?;
    put_fronts(alloc, out, texts, under, asked, systems, parents)
}

// Appends the text of the book with the entries of these locales and systems, and these parents.
fn put_selected(
    alloc: Global,
    out: &mut String,
    texts: &BookTexts<'_>,
    locales: &[String],
    systems: &[&str],
    parents: &[&str],
) -> Result<(), AllocError>
    ensures { OnOk result (string_bytes out.new ≡ string_bytes out.old ++ selected_by texts.now
        (map string_bytes locales.now) (map (λ system. system.now) systems.now) (map (λ line. line.now) parents.now)) }
{
    let mut under = Vec::new(alloc);
    let mut asked = Vec::new(alloc);
    let put = put_locales(
        alloc, out, texts, locales, systems, parents, &mut under, &mut asked,
    );
    drop(under);
    drop(asked);
    put
}

// Appends it, with the systems that are asked for where this one is preferred.
fn put_preferred(
    alloc: Global,
    out: &mut String,
    texts: &BookTexts<'_>,
    locales: &[String],
    system: Option<NumberingSystem>,
    parents: &[&str],
) -> Result<(), AllocError>
    ensures { OnOk result (string_bytes out.new ≡ string_bytes out.old ++ selected_by texts.now
        (map string_bytes locales.now) (systems_asked system) (map (λ line. line.now) parents.now)) }
{
    match system {
        Some(system) => {
            let name = system.to_tinystr();
            put_selected(
                alloc,
                out,
                texts,
                locales,
                &["", "latn", name.as_str()],
                parents,
            )
        }
        None => put_selected(alloc, out, texts, locales, &["", "latn"], parents),
    }
}

// Appends the text of the small book, by the chain of the locale that is filled in.
fn put_small<'t>(
    alloc: Global,
    out: &mut String,
    texts: &BookTexts<'t>,
    preferences: &DecimalFormatterPreferences,
    locales: &mut Vec<String>,
    parents: &mut Vec<&'t str>,
) -> Result<(), AllocError>
    requires locales { locales.old.items ≡ [] }
    requires parents { parents.old.items ≡ [] }
    ensures { OnOk result (string_bytes out.new ≡ string_bytes out.old ++ selected_text texts.now preferences.now) }
{
    let start = preferences
        .locale_preferences
        .to_data_locale_language_priority();
    put_chain(alloc, texts.numbers.parents, start, locales, parents)?;
    parents.reverse();
    put_preferred(
        alloc,
        out,
        texts,
        locales.as_slice(),
        preferences.numbering_system,
        parents.as_slice(),
    )
}

/// The text of the small book of preferences: of a book whose entries are these texts, the entries that lines of a tag
/// that prefers this can ask for.
///
/// They are those of the locales of the chain, without a system, with `latn` and with the system that is preferred; the digits of
/// these systems and of those that the chosen symbols name; the parents along the chain, from its end to its front; and
/// of units, of ordinal rules, of ranges and of signs those of the chain and of `und`, with the digits of all currencies. Of
/// the world's book with `de-AT` it has the symbols of `de-AT` and of `de`, the plural rules, patterns and signs of `de`, and
/// the digits of `latn`. An entry is found by the bytes that it begins with, so each has to be written as those of
/// `books/world.json` are.
///
/// It answers each line of the tag as the whole book does, by the law `selected_books_answer_alike` of `locale_numbers`,
/// and lines of other tags not so. It allocates. `AllocError`: out of memory.
pub fn book_text_for(
    alloc: Global,
    texts: &BookTexts<'_>,
    preferences: &DecimalFormatterPreferences,
) -> Result<String, AllocError>
    ensures text { IfOk result (λ text. string_bytes text ≡ selected_text texts.now preferences.now) }
{
    let mut text = String::new(alloc);
    let mut locales = Vec::new(alloc);
    let mut parents = Vec::new(alloc);
    let put = put_small(
        alloc,
        &mut text,
        texts,
        preferences,
        &mut locales,
        &mut parents,
    );
    drop(locales);
    drop(parents);
    match put {
        Ok(()) => Ok(text),
        Err(refused) => Err(refused),
    }
}
