//! Reading language identifiers from pieces.

ghost use Rattle.std.specs.Prelude.{◌≡◌, ◌⊎◌, ℕ, false, List, [], ◌∷◌, Some, IfOk, IfErr, IsOk, OnErr, MatchOption};
ghost use Rattle.std.specs.Result.{IsErrOf};
ghost use Rattle.icu_locale_core_grammar.specs.declared.error.ParseError.{ParseError};
ghost use Rattle.icu_locale_core_grammar.specs.Pieces.{pieces};
ghost use Rattle.icu_locale_core_langid.specs.LanguageStep.{StopsAfter, StopsWith};
ghost use Rattle.icu_locale_core_langid.specs.Modes.{ReadsInMode, HasFaultInMode, may_leave};
ghost use Rattle.icu_locale_core_langid.specs.Allocation.{grows_from, may_grow};

use crate::language_identifier::LanguageIdentifier;
use crate::language_stage::LanguageStage;
use crate::modes::ParserMode;
use crate::stepping::put_piece;
use icu_locale_core_grammar::ParseError;
use icu_locale_core_subtags::{Language, SubtagIterator};
use std::alloc::{AllocError, Global};

// The next piece, and the pieces after it.
fn next_piece<'a>(from: &SubtagIterator<'a>) -> Option<(&'a [u8], SubtagIterator<'a>)>
    ensures { MatchOption result (from.now ≡ []) (λ next. from.now ≡ next.0.now ∷ next.1) }
{
    let (behind, piece) = from.again().next_const();
    Some((piece?, behind))
}

// Puts the next pieces into a stage, as long as they fit, and gives those that are left.
fn put_pieces<'a>(
    id: &mut LanguageStage,
    from: SubtagIterator<'a>,
) -> Result<SubtagIterator<'a>, AllocError>
    ensures stops { IfOk result (StopsAfter id.old from.entry id.new) }
    ensures room { grows_from (Some id.old) from.entry ≡ false → IsOk result }
{
    let mut rest = from;
    while let Some((piece, behind)) = next_piece(&rest) {
        if !put_piece(id, piece)? {
            return Ok(rest);
        }
        rest = behind;
    }
    Ok(rest)
}

// The longest front that the steps of a language part take, and the pieces left.
fn read_front<'a>(
    alloc: Global,
    from: SubtagIterator<'a>,
) -> Result<(Option<LanguageStage>, SubtagIterator<'a>), AllocError>
    ensures stops { IfOk result (λ r. StopsWith from.entry r.0 r.1) }
    ensures room { may_grow from.entry ≡ false → IsOk result }
{
    let Some((first, behind)) = next_piece(&from) else {
        return Ok((None, from));
    };
    let Ok(language) = Language::try_from_utf8(first) else {
        return Ok((None, from));
    };
    let mut id = LanguageStage::from_language(alloc, language);
    let rest = put_pieces(&mut id, behind)?;
    Ok((Some(id), rest))
}

// Whether the mode may leave these pieces.
fn leaves(mode: ParserMode, rest: &SubtagIterator<'_>) -> bool
    ensures { result ≡ may_leave mode rest.now }
{
    match rest.peek() {
        None => true,
        Some(piece) => match mode {
            ParserMode::LanguageIdentifier => false,
            ParserMode::Locale => piece.len() == 1,
            ParserMode::Partial => true,
        },
    }
}

/// Reads a language identifier from the next pieces, as much as the mode says, and leaves the rest.
///
/// Of the pieces `en`, `US`, `u`, `nu`, mode `Locale` reads `en-US` and leaves `u`, `nu`. `InvalidLanguage`: the first
/// piece is no language, or there is none. `InvalidSubtag`: a later piece does not fit and the mode does not leave it.
/// `Memory`: out of memory; it allocates only for variants. After an error all pieces are left.
pub fn parse_language_identifier_from_iter(
    alloc: Global,
    iter: &mut SubtagIterator<'_>,
    mode: ParserMode,
) -> Result<LanguageIdentifier, ParseError>
    ensures value { IfOk result (λ id. ReadsInMode mode iter.old id iter.new) }
    ensures fault { IfErr result (λ e. (e ≡ ParseError.Memory) ⊎ HasFaultInMode mode iter.old e) }
    ensures err { OnErr result (iter.new ≡ iter.old) }
    ensures room { may_grow iter.old ≡ false → ¬ (IsErrOf result ParseError.Memory) }
{
    match read_front(alloc, iter.again()) {
        Err(_) => Err(ParseError::Memory),
        Ok((stage, rest)) => match stage {
            None => Err(ParseError::InvalidLanguage),
            Some(id) => {
                if !leaves(mode, &rest) {
                    return Err(ParseError::InvalidSubtag);
                }
                *iter = rest;
                Ok(id.settled())
            }
        },
    }
}

/// Reads a language identifier from the pieces of a text, as much as the mode says; the rest is not read.
///
/// Of `en-US-u-nu-thai`, mode `Locale` reads `en-US`. The errors are those of `parse_language_identifier_from_iter`. It
/// allocates only for variants.
pub fn parse_language_identifier(
    alloc: Global,
    code_units: &[u8],
    mode: ParserMode,
) -> Result<LanguageIdentifier, ParseError>
    ensures value { IfOk result (λ id. (rest : List (List ℕ)) × ReadsInMode mode (pieces code_units.now) id rest) }
    ensures fault { IfErr result (λ e. (e ≡ ParseError.Memory) ⊎ HasFaultInMode mode (pieces code_units.now) e) }
    ensures room { may_grow (pieces code_units.now) ≡ false → ¬ (IsErrOf result ParseError.Memory) }
{
    let mut iter = SubtagIterator::new(code_units);
    parse_language_identifier_from_iter(alloc, &mut iter, mode)
}
