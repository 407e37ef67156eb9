//! Entries that are lines, picked by the texts that they begin with.

ghost use Rattle.std.specs.Prelude.{◌≡◌, ◌++◌, ◌∷◌, [], nat_eq, filter, map, option_map, IfOk, OnOk, string_bytes};
ghost use Rattle.std.specs.List.{find, flat_map, starts_with};
ghost use Rattle.std.specs.Str.Lines.{lines};
ghost use Rattle.locale_numbers_book.specs.EntryFields.{begins, opening, opening_of_two, quoted};

use std::alloc::{AllocError, Global};
use std::convert::AsStr;

// How an entry begins with a field: `["de"`.
pub fn opening_of(alloc: Global, first: &str) -> Result<String, AllocError>
    ensures { IfOk result (λ text. string_bytes text ≡ opening first.now) }
{
    format!(in alloc; "[\"{first}\"")
}

// How an entry begins with two fields: `["de","latn"`.
fn opening_with(alloc: Global, first: &str, second: &str) -> Result<String, AllocError>
    ensures { IfOk result (λ text. string_bytes text ≡ opening_of_two first.now second.now) }
{
    format!(in alloc; "[\"{first}\",\"{second}\"")
}

// Appends how entries begin with each of these fields.
pub fn put_openings<S: AsStr>(
    alloc: Global,
    openings: &mut Vec<String>,
    firsts: &[S],
) -> Result<(), AllocError>
    ensures { OnOk result (map string_bytes openings.new.items
        ≡ map string_bytes openings.old.items ++ map opening (map S.text firsts.now)) }
{
    for first in firsts {
        let front = opening_of(alloc, first.as_str())?;
        openings.push(front)?;
    }
    Ok(())
}

// Appends how entries begin with a field and each of these.
fn put_pairs(
    alloc: Global,
    openings: &mut Vec<String>,
    first: &str,
    seconds: &[&str],
) -> Result<(), AllocError>
    ensures { OnOk result (map string_bytes openings.new.items
        ≡ map string_bytes openings.old.items ++ map (opening_of_two first.now) (map (λ second. second.now) seconds.now)) }
{
    for second in seconds {
        let front = opening_with(alloc, first, second)?;
        openings.push(front)?;
    }
    Ok(())
}

// Appends how entries begin with each of these fields, and then with each of the others.
pub fn put_all_pairs<S: AsStr>(
    alloc: Global,
    openings: &mut Vec<String>,
    firsts: &[S],
    seconds: &[&str],
) -> Result<(), AllocError>
    ensures { OnOk result (map string_bytes openings.new.items ≡ map string_bytes openings.old.items
        ++ flat_map (λ first. map (opening_of_two first) (map (λ second. second.now) seconds.now)) (map S.text firsts.now)) }
{
    for first in firsts {
        put_pairs(alloc, openings, first.as_str(), seconds)?;
    }
    Ok(())
}

// Whether an entry begins with a text.
fn has_front(line: &str, front: &str) -> bool
    ensures { result ≡ starts_with nat_eq line.now front.now }
{
    line.starts_with(front)
}

// Whether an entry begins with one of these texts.
fn begins(openings: &[String], line: &str) -> bool
    ensures { result ≡ begins (map string_bytes openings.now) line.now }
{
    for front in openings {
        if has_front(line, front.as_str()) {
            return true;
        }
    }
    false
}

// The entries of a text that begin so, in their order.
pub fn kept<'t>(
    alloc: Global,
    text: &'t str,
    openings: &[String],
) -> Result<Vec<&'t str>, AllocError>
    ensures { IfOk result (λ v. map (λ line. line.now) v.items
        ≡ filter (begins (map string_bytes openings.now)) (lines text.now)) }
{
    text.lines()
        .filter(|line| begins(openings, line))
        .collect(alloc)
}

// The first entry of a text that begins so.
pub fn first_with<'t>(text: &'t str, front: &str) -> Option<&'t str>
    ensures { option_map (λ line. line.now) result ≡ find (λ line. starts_with nat_eq line front.now) (lines text.now) }
{
    text.lines().find(|line| has_front(line, front))
}

// The piece of an entry between quotes: of `["de","latn"` `de` is the piece 1, `latn` the piece 3.
pub fn quoted(line: &str, piece: usize) -> Option<&str>
    ensures { option_map (λ text. text.now) result ≡ quoted piece line.now }
{
    line.split('"').nth(piece)
}
