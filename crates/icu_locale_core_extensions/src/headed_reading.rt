//! Reading an extension whose pieces are a head and entries, with its singleton: `u` and `t`.

ghost use Rattle.std.specs.Prelude.{◌≡◌, ◌∷◌, [], false, IfOk, IfErr};
ghost use Rattle.std.specs.Result.{IsErrOf};
ghost use Rattle.icu_locale_core_grammar.specs.declared.error.ParseError.{ParseError};
ghost use Rattle.icu_locale_core_grammar.specs.Subtags.{spells};
ghost use Rattle.icu_locale_core_grammar.specs.Pieces.{pieces};
ghost use Rattle.icu_locale_core_subtag_lists.specs.Reading.{IsRefused};
ghost use Rattle.icu_locale_core_extensions.specs.Allocation.{headed_may_grow, grows_after};
ghost use Rattle.icu_locale_core_extensions.specs.HeadedReading.{ReadsHeaded};

use crate::opening::body_behind;
use icu_locale_core_grammar::ParseError;
use icu_locale_core_keywords_fields::{
    EntriesOf, EntryKind, HeadReader, HeadedStage, headed_after, headed_finish,
};
use icu_locale_core_subtags::Step;
use std::alloc::Global;

// The head and the entries after this singleton in lower case, where the text is an extension of them; `begun` is the
// head before its first piece. The errors are those of `Unicode::try_from_str`.
pub(crate) fn read_headed<R: HeadReader, K: EntryKind>(
    alloc: Global,
    code_units: &[u8],
    letter: u8,
    begun: R::Stage,
) -> Result<(R::Stage, EntriesOf<K>), ParseError>
where
    R::Stage: Drop,
    ensures value { IfOk result
        (λ read. ReadsHeaded (letter ∷ []) R.step K.accepts K.needs begun (pieces code_units.now)
        (record { head = read.0; entries = read.1 })) }
    ensures fault { IfErr result
        (IsRefused (ReadsHeaded (letter ∷ []) R.step K.accepts K.needs begun (pieces code_units.now))) }
    ensures room { grows_after (spells (letter ∷ [])) (headed_may_grow R.step R.grows K.accepts K.needs begun)
        (pieces code_units.now) ≡ false → ¬ (IsErrOf result ParseError.Memory) }
{
    let Some(body) = body_behind(code_units, letter) else {
        return Err(ParseError::InvalidExtension);
    };
    let mut stage: HeadedStage<R::Stage, K> = HeadedStage::InHead(begun);
    for piece in body {
        match headed_after::<R, K>(alloc, stage, piece) {
            Ok(Step::Taken(next)) => stage = next,
            Ok(Step::Refused(_)) => return Err(ParseError::InvalidExtension),
            Err(_) => return Err(ParseError::Memory),
        }
    }
    match headed_finish(alloc, stage) {
        Ok(Some(read)) => Ok(read),
        Ok(None) => Err(ParseError::InvalidExtension),
        Err(_) => Err(ParseError::Memory),
    }
}
