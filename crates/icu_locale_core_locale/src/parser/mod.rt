//! Reading whole tags, one piece at a time.

ghost use Rattle.std.specs.Prelude.{◌≡◌, ◌⊎◌, false, IfOk, IfErr};
ghost use Rattle.std.specs.Result.{IsErrOf};
ghost use Rattle.icu_locale_core_grammar.specs.declared.error.ParseError.{ParseError};
ghost use Rattle.icu_locale_core_grammar.specs.Pieces.{pieces};
ghost use Rattle.icu_locale_core_grammar.specs.Meaning.{MeansTag};
ghost use Rattle.icu_locale_core_grammar.specs.FaultyPiece.{HasFault};
ghost use Rattle.icu_locale_core_locale.specs.Allocation.{tag_may_grow};

mod attempt;
mod singletons;
mod stage;

use crate::locale::Locale;
use crate::parser::attempt::Attempt;
use crate::parser::stage::{LocaleStage, finished, next_stage};
use icu_locale_core_grammar::ParseError;
use icu_locale_core_subtags::SubtagIterator;
use std::alloc::Global;

/// The locale that these bytes mean. The errors are those of `Locale::try_from_utf8`. It allocates only for variants
/// and extensions.
pub fn parse_locale(alloc: Global, code_units: &[u8]) -> Result<Locale, ParseError>
    ensures value { IfOk result (MeansTag (pieces code_units.now)) }
    ensures fault { IfErr result (λ e. (e ≡ ParseError.Memory) ⊎ HasFault MeansTag (pieces code_units.now) e) }
    ensures room { tag_may_grow (pieces code_units.now) ≡ false → ¬ (IsErrOf result ParseError.Memory) }
{
    let mut stage = LocaleStage::InLanguage(None);
    for piece in SubtagIterator::new(code_units) {
        match next_stage(alloc, stage, piece) {
            Ok(Attempt::Goes(next)) => stage = next,
            Ok(Attempt::Stops(fault)) => return Err(fault),
            Err(_) => return Err(ParseError::Memory),
        }
    }
    match finished(alloc, stage) {
        Ok(Attempt::Goes(locale)) => Ok(locale),
        Ok(Attempt::Stops(fault)) => Err(fault),
        Err(_) => Err(ParseError::Memory),
    }
}
