//! Patterns whose texts are borrowed.

ghost use Rattle.std.specs.Prelude.{◌≡◌, None, IfOk, OnOk};
ghost use Rattle.std.specs.Cmp.{partial_equiv_from_equiv};
ghost use Rattle.icu_decimal_patterns.specs.Elements.{only_other};
ghost use Rattle.icu_decimal_patterns.specs.Pattern.{around, literal};
ghost use Rattle.icu_decimal_patterns.specs.SamePattern.{same_pattern, same_pattern_equiv};

use crate::elements::PluralElements;
use crate::pattern::Pattern;
use std::alloc::{AllocError, Global};
use std::marker::Model;

// The texts of a pattern.
#[derive(Clone, Copy)]
pub(crate) enum BorrowedTexts<'a> {
    Literal(&'a str),
    Around(&'a str, &'a str),
}

// A pattern of texts that are elsewhere, as in a JSON value.
#[derive(Drop)]
pub(crate) struct BorrowedPattern<'a> {
    pub(crate) texts: BorrowedTexts<'a>,
}

impl<'a> Model for BorrowedPattern<'a> {
    ghost use Rattle.icu_decimal_patterns.specs.Pattern.{PatternText};
    ghost use Rattle.icu_decimal_patterns.specs.HeldTexts.{borrowed};

    ghost Value = { PatternText };

    ghost view = { λ p. borrowed p.texts };
}

impl<'a> BorrowedPattern<'a> {
    // The pattern with these texts around its placeholder.
    pub(crate) fn around(before: &'a str, after: &'a str) -> Self
        ensures { result ≡ around before.now after.now }
    {
        BorrowedPattern {
            texts: BorrowedTexts::Around(before, after),
        }
    }

    // The pattern of this text alone.
    pub(crate) fn literal(text: &'a str) -> Self
        ensures { result ≡ literal text.now }
    {
        BorrowedPattern {
            texts: BorrowedTexts::Literal(text),
        }
    }

    // The same pattern with texts of its own.
    fn to_owned(&self, alloc: Global) -> Result<Pattern, AllocError>
        ensures { IfOk result (λ pattern. pattern ≡ self.now) }
    {
        match self.texts {
            BorrowedTexts::Literal(text) => {
                let text = String::from_str(alloc, text)?;
                Ok(Pattern::literal(text))
            }
            BorrowedTexts::Around(before, after) => {
                let before = String::from_str(alloc, before)?;
                let after = String::from_str(alloc, after)?;
                Ok(Pattern::around(before, after))
            }
        }
    }
}

impl<'a> PartialEq for BorrowedPattern<'a> {
    ghost eq = { same_pattern };

    ghost laws = { partial_equiv_from_equiv same_pattern_equiv };

    fn eq(&self, other: &Self) -> bool {
        match (&self.texts, &other.texts) {
            (BorrowedTexts::Literal(one), BorrowedTexts::Literal(other)) => *one == *other,
            (
                BorrowedTexts::Around(before, after),
                BorrowedTexts::Around(other_before, other_after),
            ) => *before == *other_before && *after == *other_after,
            _ => false,
        }
    }
}

impl<'a> Eq for BorrowedPattern<'a> {
    ghost laws = { same_pattern_equiv };
}

// Puts the same pattern with texts of its own into a slot, where there is one.
fn put_owned(
    alloc: Global,
    slot: &Option<BorrowedPattern<'_>>,
    into: &mut Option<Pattern>,
) -> Result<(), AllocError>
    requires empty { into.old ≡ None }
    ensures { OnOk result (into.new ≡ slot.now) }
{
    if let Some(pattern) = slot {
        let pattern = pattern.to_owned(alloc)?;
        drop(into.replace(pattern));
    }
    Ok(())
}

// Fills the slots beside `other`.
fn fill_owned(
    alloc: Global,
    patterns: &PluralElements<BorrowedPattern<'_>>,
    into: &mut PluralElements<Pattern>,
) -> Result<(), AllocError>
    requires empty { into.old ≡ only_other patterns.now.other }
    ensures { OnOk result (into.new ≡ patterns.now) }
{
    put_owned(alloc, &patterns.explicit_zero, &mut into.explicit_zero)?;
    put_owned(alloc, &patterns.explicit_one, &mut into.explicit_one)?;
    put_owned(alloc, &patterns.zero, &mut into.zero)?;
    put_owned(alloc, &patterns.one, &mut into.one)?;
    put_owned(alloc, &patterns.two, &mut into.two)?;
    put_owned(alloc, &patterns.few, &mut into.few)?;
    put_owned(alloc, &patterns.many, &mut into.many)?;
    Ok(())
}

// The same patterns with texts of their own.
pub(crate) fn owned_elements(
    alloc: Global,
    patterns: &PluralElements<BorrowedPattern<'_>>,
) -> Result<PluralElements<Pattern>, AllocError>
    ensures { IfOk result (λ owned. owned ≡ patterns.now) }
{
    let mut elements = PluralElements::new(patterns.other.to_owned(alloc)?);
    match fill_owned(alloc, patterns, &mut elements) {
        Ok(()) => Ok(elements),
        Err(error) => {
            drop(elements);
            Err(error)
        }
    }
}
