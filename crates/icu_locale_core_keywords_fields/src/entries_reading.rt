//! Reading keywords or fields by themselves.

ghost use Rattle.std.specs.Prelude.{◌≡◌, false, [], IfOk, IfErr, IsOk};
ghost use Rattle.std.specs.Result.{IsErrOf};
ghost use Rattle.icu_locale_core_grammar.specs.declared.error.ParseError.{ParseError};
ghost use Rattle.icu_locale_core_grammar.specs.Pieces.{pieces};
ghost use Rattle.icu_locale_core_grammar.specs.PartReaders.{MeansEntries, listed};
ghost use Rattle.icu_locale_core_subtag_lists.specs.Reading.{IsRefused};
ghost use Rattle.icu_locale_core_keywords_fields.specs.Allocation.{begins_entry};

use crate::entries::EntriesOf;
use crate::headed::{HeadedStage, NoHead, headed_after, headed_finish};
use crate::kind::EntryKind;
use icu_locale_core_grammar::ParseError;
use icu_locale_core_subtags::{Step, SubtagIterator};
use std::alloc::Global;

impl<K: EntryKind> EntriesOf<K> {
    /// The map in this text: keys, each with the pieces of its value after it; of equal keys the first is kept.
    ///
    /// `NU-thai-ca-buddhist-nu-latn` has `ca` with `buddhist` and `nu` with `thai`; the empty text is the empty map.
    /// `ParseError::InvalidExtension`: the text is no such list, or a field has no value. `ParseError::Memory`: out of
    /// memory. It does not allocate where neither a piece of a value but `true` nor the end of an entry comes before the
    /// first piece at fault, as in `nu-toolongpiece`.
    pub fn try_from_str(alloc: Global, s: &str) -> Result<Self, ParseError>
        ensures value { IfOk result (MeansEntries K.accepts K.needs (listed s.now)) }
        ensures fault { IfErr result (IsRefused (MeansEntries K.accepts K.needs (listed s.now))) }
        ensures succeeds { s.now ≡ [] → IsOk result }
        ensures room { begins_entry K.accepts K.needs (pieces s.now) ≡ false → ¬ (IsErrOf result ParseError.Memory) }
    {
        Self::try_from_utf8(alloc, s.as_bytes())
    }

    /// The map in these bytes, as `try_from_str`: `NU-thai` has `nu` with `thai`. The errors are those of
    /// `try_from_str`; it allocates where that does.
    pub fn try_from_utf8(alloc: Global, code_units: &[u8]) -> Result<Self, ParseError>
        ensures value { IfOk result (MeansEntries K.accepts K.needs (listed code_units.now)) }
        ensures fault { IfErr result (IsRefused (MeansEntries K.accepts K.needs (listed code_units.now))) }
        ensures succeeds { code_units.now ≡ [] → IsOk result }
        ensures room { begins_entry K.accepts K.needs (pieces code_units.now) ≡ false
            → ¬ (IsErrOf result ParseError.Memory) }
    {
        if code_units.is_empty() {
            return Ok(Self::new(alloc));
        }
        let mut stage: HeadedStage<(), K> = HeadedStage::InHead(());
        for piece in SubtagIterator::new(code_units) {
            match headed_after::<NoHead, K>(alloc, stage, piece) {
                Ok(Step::Taken(next)) => stage = next,
                Ok(Step::Refused(_)) => return Err(ParseError::InvalidExtension),
                Err(_) => return Err(ParseError::Memory),
            }
        }
        match headed_finish(alloc, stage) {
            Ok(Some((_, entries))) => Ok(entries),
            Ok(None) => Err(ParseError::InvalidExtension),
            Err(_) => Err(ParseError::Memory),
        }
    }
}
