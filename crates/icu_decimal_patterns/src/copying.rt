//! Copies of tables and their patterns.

ghost use Rattle.std.specs.Prelude.{◌≡◌, [], None, IfOk, IfSome, IsOk, OnOk};
ghost use Rattle.icu_decimal_patterns.specs.Elements.{only_other};
ghost use Rattle.icu_decimal_patterns.specs.Pattern.{HasNoText};
ghost use Rattle.icu_decimal_patterns.specs.TextlessElements.{HaveNoText};

use crate::compact_patterns::CompactPatterns;
use crate::elements::PluralElements;
use crate::pattern::Pattern;
use icu_decimal_compact_value::CompactEntry;
use std::alloc::{AllocError, Global};

// Puts an equal pattern into a slot, where there is one.
fn put_copied(slot: &Option<Pattern>, into: &mut Option<Pattern>) -> Result<(), AllocError>
    requires empty { into.old ≡ None }
    ensures succeeds { IfSome slot.now HasNoText → IsOk result }
    ensures value { OnOk result (into.new ≡ slot.now) }
{
    if let Some(pattern) = slot {
        let copy = pattern.try_clone()?;
        drop(into.replace(copy));
    }
    Ok(())
}

// Fills the slots beside `other`.
fn fill_copied(
    patterns: &PluralElements<Pattern>,
    into: &mut PluralElements<Pattern>,
) -> Result<(), AllocError>
    requires empty { into.old ≡ only_other patterns.now.other }
    ensures succeeds { HaveNoText patterns.now → IsOk result }
    ensures value { OnOk result (into.new ≡ patterns.now) }
{
    put_copied(&patterns.explicit_zero, &mut into.explicit_zero)?;
    put_copied(&patterns.explicit_one, &mut into.explicit_one)?;
    put_copied(&patterns.zero, &mut into.zero)?;
    put_copied(&patterns.one, &mut into.one)?;
    put_copied(&patterns.two, &mut into.two)?;
    put_copied(&patterns.few, &mut into.few)?;
    put_copied(&patterns.many, &mut into.many)?;
    Ok(())
}

impl PluralElements<Pattern> {
    /// Equal patterns in the same slots: of `{0}K` for `one` and `{0}Ks` for `other` these once more.
    ///
    /// It allocates for each text that is not empty. `AllocError`: out of memory, only where there is one.
    pub fn try_clone(&self) -> Result<Self, AllocError>
        ensures succeeds { HaveNoText self.now → IsOk result }
        ensures value { IfOk result (λ copy. copy ≡ self.now) }
    {
        let mut elements = PluralElements::new(self.other.try_clone()?);
        match fill_copied(self, &mut elements) {
            Ok(()) => Ok(elements),
            Err(error) => {
                drop(elements);
                Err(error)
            }
        }
    }
}

// Equal entries, in their order; no memory is taken for none.
fn entries_copied(alloc: Global, entries: &[CompactEntry]) -> Result<Vec<CompactEntry>, AllocError>
    ensures succeeds { entries.now ≡ [] → IsOk result }
    ensures value { IfOk result (λ copies. copies.items ≡ entries.now) }
{
    if entries.is_empty() {
        return Ok(Vec::new(alloc));
    }
    Vec::from_slice(alloc, entries)
}

// Equal patterns, in their order.
fn all_copied(
    alloc: Global,
    patterns: &[PluralElements<Pattern>],
) -> Result<Vec<PluralElements<Pattern>>, AllocError>
    ensures succeeds { patterns.now ≡ [] → IsOk result }
    ensures value { IfOk result (λ copies. copies.items ≡ patterns.now) }
{
    let mut copies = Vec::with_capacity(alloc, patterns.len())?;
    for each in patterns {
        let copy = each.try_clone()?;
        copies.push(copy)?;
    }
    Ok(copies)
}

impl CompactPatterns {
    /// An equal table: of that with `K` at type 3 another with `K` at type 3.
    ///
    /// It allocates for each entry. `AllocError`: out of memory, only where there is one.
    pub fn try_clone(&self) -> Result<Self, AllocError>
        ensures succeeds { self.now.entries ≡ [] → IsOk result }
        ensures value { IfOk result (λ copy. copy ≡ self.now) }
    {
        let alloc = *self.entries.allocator();
        let entries = entries_copied(alloc, self.entries.as_slice())?;
        let patterns = all_copied(alloc, self.patterns.as_slice())?;
        Ok(CompactPatterns { entries, patterns })
    }
}
