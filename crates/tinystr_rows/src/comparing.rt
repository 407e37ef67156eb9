//! Equality, order, hash and printing, and the empty text.

ghost use Rattle.std.specs.Prelude.{◌≤◌};

use crate::argument::Argument;
use crate::writing::put_bytes;
use rows::{Stop, put, put_debug};
use std::collections::BTreeSet;
use std::collections::hash_map::DefaultHasher;
use std::hash::{Hash, Hasher};
use tinystr::{TinyAsciiStr, TinyStr4};

pub fn answer<const N: usize>(
    call: &str,
    arguments: &[Argument<'_>],
    out: &mut String,
) -> Result<(), Stop>
    requires { N ≤ 16 }
{
    match arguments {
        [] if call == "default" => put_bytes(out, TinyAsciiStr::<N>::default().as_utf8()),
        [text] => answer_one(call, text.small::<N>()?, out),
        [one, other] => answer_two(call, one.small::<N>()?, other.small::<N>()?, out),
        texts if call == "BTreeSet" && N == 4 => put_set(texts, out),
        _ => Err(Stop::Unknown),
    }
}

fn answer_one<const N: usize>(
    call: &str,
    text: TinyAsciiStr<N>,
    out: &mut String,
) -> Result<(), Stop> {
    match call {
        "hashes_as_its_text" => put(out, &(hash_of(&text) == hash_of(&text.as_str()))),
        "{}" => put(out, &text),
        "{:>6}" => Ok(write!(out, "{text:>6}")?),
        "{:?}" => put_debug(out, &text),
        _ => Err(Stop::Unknown),
    }
}

fn answer_two<const N: usize>(
    call: &str,
    one: TinyAsciiStr<N>,
    other: TinyAsciiStr<N>,
    out: &mut String,
) -> Result<(), Stop> {
    match call {
        "eq" => put(out, &(one == other)),
        "cmp" => put_debug(out, &one.cmp(&other)),
        _ => Err(Stop::Unknown),
    }
}

fn hash_of<T: Hash>(value: &T) -> u64 {
    let mut hasher = DefaultHasher::new();
    value.hash(&mut hasher);
    hasher.finish()
}

// Writes the texts in the order of a set.
fn put_set(texts: &[Argument<'_>], out: &mut String) -> Result<(), Stop> {
    let mut set = BTreeSet::new(*out.allocator());
    let put = match insert_all(&mut set, texts) {
        Ok(()) => put_all(&set, out),
        Err(fault) => Err(fault),
    };
    drop(set);
    put
}

fn insert_all(set: &mut BTreeSet<TinyStr4>, texts: &[Argument<'_>]) -> Result<(), Stop> {
    for text in texts {
        set.insert(text.small::<4>()?)?;
    }
    Ok(())
}

// Writes the texts of a set in their order, a comma after each.
fn put_all(set: &BTreeSet<TinyStr4>, out: &mut String) -> Result<(), Stop> {
    for text in set.iter() {
        out.push_str(text.as_str())?;
        out.push(',')?;
    }
    Ok(())
}
