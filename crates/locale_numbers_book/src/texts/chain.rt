//! The locales that are asked for, by entries of parents that are lines.

ghost use Rattle.std.specs.Prelude.{◌≡◌, ◌++◌, ◌∷◌, [], ◌*◌, ◌+◌, length, map, option_map, option_to_list, IfOk, OnOk, string_bytes};
ghost use Rattle.std.specs.List.{filter_map};
ghost use Rattle.std.specs.Str.Lines.{lines};
ghost use Rattle.icu_locale_core.specs.DataText.{data_text};
ghost use Rattle.locale_numbers_book.specs.SelectedText.{chain_by, listed, listed_as, locale_preferred, parent_by, parent_named, step_by};

use crate::tag_reader::read_preferences;
use crate::texts::entries::{first_with, opening_of, quoted};
use icu_locale_core::DataLocale;
use std::alloc::{AllocError, Global};
use writeable::Writeable;

// How many steps are taken at most: five for each entry, and four, as in a book of them.
fn most_steps(parents: &str) -> u128
    ensures { result ≡ 5 * length (lines parents.now) + 4 }
{
    5 * (parents.lines().count() as u128) + 4
}

// The locale that a text prefers, where it is a tag.
fn locale_preferred(alloc: Global, text: &str) -> Result<Option<DataLocale>, AllocError>
    ensures { IfOk result (λ locale. locale ≡ locale_preferred text.now) }
{
    match read_preferences(alloc, text.as_bytes()) {
        Ok(Some(preferences)) => Ok(Some(
            preferences
                .locale_preferences
                .to_data_locale_language_priority(),
        )),
        Ok(None) => Ok(None),
        Err(refused) => Err(refused),
    }
}

// The locale that an entry names as the parent.
fn parent_named(alloc: Global, entry: &str) -> Result<Option<DataLocale>, AllocError>
    ensures { IfOk result (λ locale. locale ≡ parent_named entry.now) }
{
    match quoted(entry, 3) {
        Some(text) => locale_preferred(alloc, text),
        None => Ok(None),
    }
}

// The entry of a locale with this text.
fn listed_as<'t>(alloc: Global, parents: &'t str, name: &str) -> Result<Option<&'t str>, AllocError>
    ensures { IfOk result (λ entry. option_map (λ line. line.now) entry ≡ listed_as (lines parents.now) name.now) }
{
    match opening_of(alloc, name) {
        Ok(front) => {
            let entry = first_with(parents, front.as_str());
            drop(front);
            Ok(entry)
        }
        Err(refused) => Err(refused),
    }
}

// The entry of a locale.
fn listed<'t>(
    alloc: Global,
    parents: &'t str,
    locale: &DataLocale,
) -> Result<Option<&'t str>, AllocError>
    ensures { IfOk result (λ entry. option_map (λ line. line.now) entry ≡ listed (lines parents.now) locale.now) }
{
    match name_of(alloc, locale) {
        Ok(name) => {
            let entry = listed_as(alloc, parents, name.as_str());
            drop(name);
            entry
        }
        Err(refused) => Err(refused),
    }
}

// The locale that is asked for after one with this entry, if it has one.
fn parent(
    alloc: Global,
    locale: &DataLocale,
    entry: Option<&str>,
) -> Result<Option<DataLocale>, AllocError>
    ensures { IfOk result (λ next. next ≡ parent_by (option_map (λ line. line.now) entry.entry) locale.now) }
{
    let Some(entry) = entry else {
        return Ok(locale.truncated());
    };
    match parent_named(alloc, entry)? {
        Some(parent) => Ok(Some(parent)),
        None => Ok(locale.truncated()),
    }
}

// The text of a locale.
#[tactic(auto, using(writeable::proofs::AnnotatedTextLemmas::text_of_bytes))]
fn name_of(alloc: Global, locale: &DataLocale) -> Result<String, AllocError>
    ensures { IfOk result (λ name. string_bytes name ≡ data_text locale.now) }
{
    match locale.write_to_string(alloc) {
        Ok(name) => Ok(name),
        Err(refused) => Err(refused),
    }
}

// Appends the text of a locale.
fn put_name(alloc: Global, locale: &DataLocale, names: &mut Vec<String>) -> Result<(), AllocError>
    ensures { OnOk result (map string_bytes names.new.items
        ≡ map string_bytes names.old.items ++ data_text locale.now ∷ []) }
{
    let name = name_of(alloc, locale)?;
    names.push(name)?;
    Ok(())
}

// Appends the text of a locale, and its entry, if it has one, and returns the locale that is asked for after it.
fn visit<'t>(
    alloc: Global,
    parents: &'t str,
    locale: &DataLocale,
    names: &mut Vec<String>,
    entries: &mut Vec<&'t str>,
) -> Result<Option<DataLocale>, AllocError>
    ensures names { OnOk result (map string_bytes names.new.items ≡ map string_bytes names.old.items ++ data_text locale.now ∷ []) }
    ensures entries { OnOk result (map (λ line. line.now) entries.new.items
        ≡ map (λ line. line.now) entries.old.items ++ option_to_list (listed (lines parents.now) locale.now)) }
    ensures next { IfOk result (λ next. next ≡ step_by (lines parents.now) locale.now) }
{
    put_name(alloc, locale, names)?;
    let entry = listed(alloc, parents, locale)?;
    if let Some(line) = entry {
        entries.push(line)?;
    }
    parent(alloc, locale, entry)
}

/// Appends the texts of the locales that are asked for from one on, `de-AT` and `de` of `de-AT`, and their entries.
pub fn put_chain<'t>(
    alloc: Global,
    parents: &'t str,
    start: DataLocale,
    names: &mut Vec<String>,
    entries: &mut Vec<&'t str>,
) -> Result<(), AllocError>
    ensures names { OnOk result (map string_bytes names.new.items
        ≡ map string_bytes names.old.items ++ map data_text (chain_by (lines parents.now) start)) }
    ensures entries { OnOk result (map (λ line. line.now) entries.new.items
        ≡ map (λ line. line.now) entries.old.items
        ++ filter_map (listed (lines parents.now)) (chain_by (lines parents.now) start)) }
{
    let mut current = start;
    for _turn in 0..most_steps(parents) {
        match visit(alloc, parents, &current, names, entries)? {
            Some(next) => current = next,
            None => return Ok(()),
        }
    }
    match visit(alloc, parents, &current, names, entries) {
        Ok(_) => Ok(()),
        Err(refused) => Err(refused),
    }
}
