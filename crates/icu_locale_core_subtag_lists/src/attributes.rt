//! The attributes of a `u` extension.

ghost use Rattle.std.specs.Prelude.{◌≡◌, true, false, [], ◌++◌, IsOk, IfOk, IfErr, OnOk, OnErr};
ghost use Rattle.std.specs.Result.{IsErrOf};
ghost use Rattle.icu_locale_core_grammar.specs.declared.error.ParseError.{ParseError};
ghost use Rattle.icu_locale_core_grammar.specs.Subtags.{is_attribute};
ghost use Rattle.icu_locale_core_grammar.specs.Collections.{Rises, set_of};
ghost use Rattle.icu_locale_core_grammar.specs.Pieces.{pieces};
ghost use Rattle.icu_locale_core_grammar.specs.PartReaders.{ReadsAttributes};
ghost use Rattle.icu_locale_core_subtag_lists.specs.Reading.{IsRefused, begins};
ghost use Rattle.icu_locale_core_subtag_lists.specs.SubtagSets.{has_all_of};

use crate::growing_set::GrowingSet;
use crate::laws::texts_rise;
use crate::subtag_set::SubtagSet;
use icu_locale_core_grammar::ParseError;
use icu_locale_core_subtags::SubtagIterator;
use icu_locale_core_subtags::unicode::{Attribute, AttributeRule};
use std::alloc::{AllocError, Global};

/// The attributes of a `u` extension: none of them twice, in byte order, as `bar`, `foo`.
pub type Attributes = SubtagSet<AttributeRule>;

impl SubtagSet<AttributeRule> {
    /// The set of the attributes of this text, pieces of 3 to 8 letters and digits in either case between hyphens.
    ///
    /// `foo-Bar-FOO` has `bar`, `foo`; the empty text has none. `InvalidExtension` where a piece is no attribute.
    /// `Memory`: out of memory. It does not allocate where the first piece is no attribute. Source: UTS 35, section
    /// 3.6.
    pub fn try_from_str(alloc: Global, s: &str) -> Result<Attributes, ParseError>
        ensures succeeds { s.now ≡ [] → IsOk result }
        ensures value { IfOk result (ReadsAttributes s.now) }
        ensures fault { IfErr result (IsRefused (ReadsAttributes s.now)) }
        ensures room { begins is_attribute (pieces s.now) ≡ false → ¬ (IsErrOf result ParseError.Memory) }
    {
        Attributes::try_from_utf8(alloc, s.as_bytes())
    }

    /// The set of the attributes of these bytes, as `try_from_str`: `foo-Bar-FOO` has `bar`, `foo`. The errors are
    /// those of `try_from_str`; it allocates where that does.
    pub fn try_from_utf8(alloc: Global, code_units: &[u8]) -> Result<Attributes, ParseError>
        ensures succeeds { code_units.now ≡ [] → IsOk result }
        ensures value { IfOk result (ReadsAttributes code_units.now) }
        ensures fault { IfErr result (IsRefused (ReadsAttributes code_units.now)) }
        ensures room { begins is_attribute (pieces code_units.now) ≡ false → ¬ (IsErrOf result ParseError.Memory) }
    {
        if code_units.is_empty() {
            return Ok(Attributes::new(alloc));
        }
        let mut attributes = GrowingSet::new(alloc);
        for piece in SubtagIterator::new(code_units) {
            let Ok(attribute) = Attribute::try_from_utf8(piece) else {
                return Err(ParseError::InvalidExtension);
            };
            let Ok(_) = attributes.push(attribute) else {
                return Err(ParseError::Memory);
            };
        }
        Ok(attributes.settled())
    }

    // A set of the same attributes that will grow by many: adding one costs the logarithm of their count.
    fn growing(&self) -> Result<GrowingSet<AttributeRule>, AllocError>
        ensures value { IfOk result (λ growing. growing ≡ self.now) }
        ensures rises { Rises self.now }
    {
        let mut growing = GrowingSet::new(self.allocator());
        for attribute in self.as_slice() {
            growing.push(*attribute)?;
        }
        Ok(growing)
    }

    /// Whether each of these attributes is in the set: `bar`, `foo` has all of `foo`, and not all of `baz`, `foo`. It
    /// does not allocate.
    pub fn has_all(&self, attributes: &[Attribute]) -> bool
        ensures { result ≡ has_all_of self.now attributes.now }
    {
        for attribute in attributes {
            if !self.contains(attribute) {
                return false;
            }
        }
        true
    }

    /// The attributes of both sets: `bar`, `foo` joined with `baz`, `foo` is `bar`, `baz`, `foo`.
    ///
    /// `AllocError`: out of memory; the other set is then dropped. It does not allocate where the other has all of this
    /// set.
    pub fn joined(&self, other: Attributes) -> Result<Attributes, AllocError>
        ensures within { has_all_of other self.now ≡ true → IsOk result }
        ensures value { IfOk result (λ set. set ≡ set_of (self.now ++ other)) }
    {
        if other.has_all(self.as_slice()) {
            texts_rise(&other);
            return Ok(other);
        }
        let mut joined = self.growing()?;
        for attribute in other.as_slice() {
            joined.push(*attribute)?;
        }
        Ok(joined.settled())
    }

    /// Adds the attributes of the other set to this one.
    ///
    /// `bar`, `foo` with `baz`, `foo` becomes `bar`, `baz`, `foo`. `AllocError`: out of memory; the set is then as
    /// before. It does not allocate where one of the two has all of the other.
    pub fn extend_from_attributes(&mut self, other: Attributes) -> Result<(), AllocError>
        ensures succeeds { other ≡ [] → IsOk result }
        ensures empty { self.old ≡ [] → IsOk result }
        ensures there { has_all_of self.old other ≡ true → IsOk result }
        ensures within { has_all_of other self.old ≡ true → IsOk result }
        ensures value { OnOk result (self.new ≡ set_of (self.old ++ other)) }
        ensures err { OnErr result (self.new ≡ self.old) }
    {
        if self.has_all(other.as_slice()) {
            texts_rise(self);
            return Ok(());
        }
        let joined = self.joined(other)?;
        *self = joined;
        Ok(())
    }
}
