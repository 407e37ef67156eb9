//! The stages of a tag that is being read.

ghost use Rattle.std.specs.Prelude.{◌≡◌, ◌<◌, ◌&&◌, ℕ, List, [], true, false, None, Some, length, IfOk, IsOk, MatchOption};
ghost use Rattle.icu_locale_core_grammar.specs.Subtags.{is_private_piece, is_singleton};
ghost use Rattle.icu_locale_core_grammar.specs.Stepping.{InFront, InBlock};
ghost use Rattle.icu_locale_core_grammar.specs.TagStages.{body_after as body_stage_after, body_ends, language_after as language_stage_after, stage_behind};
ghost use Rattle.icu_locale_core_grammar.specs.Meaning.{put_part as put_meaning};
ghost use Rattle.icu_locale_core_extensions.specs.BodyView.{body_key, body_view, is_other_part, part_view, HasKey};
ghost use Rattle.icu_locale_core_extensions.specs.Allocation.{body_keeps};
ghost use Rattle.icu_locale_core_langid.specs.Allocation.{grows_at};
ghost use Rattle.icu_locale_core_locale.specs.Allocation.{tag_grows_at, tag_keeps};
ghost use Rattle.icu_locale_core_locale.specs.StageView.{singletons, stage_view, block_view, GoesOn, Ends, HasEnded, HasFewBefore};

use crate::locale::Locale;
use crate::parser::attempt::Attempt;
use crate::parser::singletons::{Singletons, has_come, key_of, opens_private};
use icu_locale_core_extensions::{
    BodyStage, Extensions, Part, body_after, body_finish, opened_body, put_part,
};
use icu_locale_core_grammar::ParseError;
use icu_locale_core_langid::{LanguageIdentifier, LanguageStage, language_after};
use icu_locale_core_subtag_lists::Private;
use icu_locale_core_subtags::private::Subtag;
use icu_locale_core_subtags::{Step, is_one_character};
use std::alloc::{AllocError, Global};

/// An extension that is being read.
#[derive(Drop)]
pub struct ExtensionStage {
    /// The language part.
    pub id: LanguageIdentifier,
    /// The singletons of the extensions before, in lower case.
    pub seen: Singletons,
    /// The extensions before; their private subtags are not looked at.
    pub extensions: Extensions,
    /// The pieces so far.
    pub body: BodyStage,
    /// Whether there is a piece after the singleton.
    pub filled: bool,
}

/// How far a tag is read.
#[derive(Drop)]
pub enum LocaleStage {
    /// In the language part.
    InLanguage(Option<LanguageStage>),
    /// In an extension.
    InExtension(ExtensionStage),
    /// After `x`, the private subtags by themselves.
    InPrivate(LanguageIdentifier, Extensions, Private),
}

// After a part that may end: `x`, or a singleton that has not come yet.
fn stage_after_part(
    alloc: Global,
    id: LanguageIdentifier,
    seen: Singletons,
    extensions: Extensions,
    piece: &[u8],
) -> Option<LocaleStage>
    ensures { MatchOption result (stage_behind id (singletons seen) extensions.blocks piece.now ≡ None)
        (λ s. stage_behind id (singletons seen) extensions.blocks piece.now ≡ Some (stage_view s)) }
{
    if opens_private(piece) {
        drop(seen);
        return Some(LocaleStage::InPrivate(id, extensions, Private::new(alloc)));
    }
    if has_come(seen.as_slice(), piece) {
        drop((id, seen, extensions));
        return None;
    }
    match opened_body(alloc, piece) {
        Some(body) => Some(LocaleStage::InExtension(ExtensionStage {
            id,
            seen,
            extensions,
            body,
            filled: false,
        })),
        None => {
            drop((id, seen, extensions));
            None
        }
    }
}

// After a language identifier that does not take the piece.
#[tactic(auto, unfolding(icu_locale_core_grammar::specs::Stepping::whole_after))]
fn after_identifier(alloc: Global, id: LanguageIdentifier, piece: &[u8]) -> Attempt<LocaleStage>
    ensures { language_stage_after (Some id) piece.now ≡ None → GoesOn (InFront (Some id)) piece.now result }
{
    match stage_after_part(
        alloc,
        id,
        Singletons::new(alloc),
        Extensions::new(alloc),
        piece,
    ) {
        Some(stage) => Attempt::Goes(stage),
        None => Attempt::Stops(ParseError::InvalidSubtag),
    }
}

// In the language part: one more piece of it, or what comes after it.
#[tactic(auto, unfolding(icu_locale_core_grammar::specs::Stepping::whole_after))]
fn after_language(
    alloc: Global,
    language: Option<LanguageStage>,
    piece: &[u8],
) -> Result<Attempt<LocaleStage>, AllocError>
    ensures step { IfOk result (GoesOn (InFront language) piece.now) }
    ensures room { grows_at language piece.now ≡ false → IsOk result }
{
    match language_after(alloc, language, piece)? {
        Step::Taken(next) => Ok(Attempt::Goes(LocaleStage::InLanguage(next))),
        Step::Refused(None) => Ok(Attempt::Stops(ParseError::InvalidLanguage)),
        Step::Refused(Some(id)) => Ok(after_identifier(alloc, id.settled(), piece)),
    }
}

// Puts an extension that ends, and its singleton, after those before it; false where it may not end.
fn end_body(
    alloc: Global,
    seen: &mut Singletons,
    extensions: &mut Extensions,
    body: BodyStage,
) -> Result<bool, AllocError>
    ensures ended { IfOk result (λ is_ended. is_ended ≡ true
        → HasEnded (singletons seen.old) (singletons seen.new) extensions.old.blocks extensions.new.blocks (body_key body)
        (body_view body)) }
    ensures faulty { IfOk result (λ is_ended. is_ended ≡ false → body_ends (body_view body) ≡ None) }
    ensures room { body_keeps (body_view body) ≡ false → length seen.old < 36 → IsOk result }
{
    let key = key_of(&body);
    let Some(part) = body_finish(alloc, body)? else {
        return Ok(false);
    };
    put_part(extensions, part)?;
    seen.push(key)?;
    Ok(true)
}

// After an extension that does not take the piece, which is at fault where it is no single character.
#[tactic(auto, unfolding(icu_locale_core_grammar::specs::Stepping::whole_after))]
fn after_ended(
    alloc: Global,
    id: LanguageIdentifier,
    mut seen: Singletons,
    mut extensions: Extensions,
    body: BodyStage,
    piece: &[u8],
) -> Result<Attempt<LocaleStage>, AllocError>
    ensures step { body_stage_after (body_view body) piece.now ≡ None
        → IfOk result
        (GoesOn (InBlock id (singletons seen) extensions.blocks (body_key body) (body_view body)) piece.now) }
    ensures room { (is_singleton piece.now && body_keeps (body_view body)) ≡ false
        → length seen < 36 → IsOk result }
{
    if !is_one_character(piece) {
        drop((id, seen, extensions, body));
        return Ok(Attempt::Stops(ParseError::InvalidExtension));
    }
    match end_body(alloc, &mut seen, &mut extensions, body) {
        Ok(true) => {
            let repeated = has_come(seen.as_slice(), piece);
            match stage_after_part(alloc, id, seen, extensions, piece) {
                Some(stage) => Ok(Attempt::Goes(stage)),
                None if repeated => Ok(Attempt::Stops(ParseError::DuplicatedExtension)),
                None => Ok(Attempt::Stops(ParseError::InvalidExtension)),
            }
        }
        Ok(false) => {
            drop((id, seen, extensions));
            Ok(Attempt::Stops(ParseError::InvalidExtension))
        }
        Err(error) => {
            drop((id, seen, extensions));
            Err(error)
        }
    }
}

// In an extension: one more piece of it, or what comes after it.
#[tactic(auto, unfolding(icu_locale_core_grammar::specs::Stepping::whole_after))]
fn after_extension(
    alloc: Global,
    stage: ExtensionStage,
    piece: &[u8],
) -> Result<Attempt<LocaleStage>, AllocError>
    ensures step { IfOk result
        (GoesOn (block_view stage.id stage.seen stage.extensions.blocks stage.body stage.filled) piece.now) }
    ensures room { tag_grows_at (block_view stage.id stage.seen stage.extensions.blocks stage.body stage.filled)
        piece.now ≡ false → length stage.seen < 36 → IsOk result }
{
    let ExtensionStage {
        id,
        seen,
        extensions,
        body,
        filled,
    } = stage;
    let step = match body_after(alloc, body, piece) {
        Ok(step) => step,
        Err(error) => {
            drop((id, seen, extensions));
            return Err(error);
        }
    };
    match step {
        Step::Taken(body) => Ok(Attempt::Goes(LocaleStage::InExtension(ExtensionStage {
            id,
            seen,
            extensions,
            body,
            filled: true,
        }))),
        Step::Refused(body) => {
            if filled {
                after_ended(alloc, id, seen, extensions, body, piece)
            } else {
                drop((id, seen, extensions, body));
                Ok(Attempt::Stops(ParseError::InvalidExtension))
            }
        }
    }
}

// After `x`: one more private subtag.
#[tactic(auto, unfolding(icu_locale_core_grammar::specs::Stepping::whole_after))]
fn after_private(
    id: LanguageIdentifier,
    extensions: Extensions,
    mut private: Private,
    piece: &[u8],
) -> Result<Attempt<LocaleStage>, AllocError>
    ensures step { IfOk result (GoesOn (stage_view (LocaleStage.InPrivate id extensions private)) piece.now) }
    ensures room { is_private_piece piece.now ≡ false → IsOk result }
{
    let Ok(subtag) = Subtag::try_from_utf8(piece) else {
        drop((id, extensions, private));
        return Ok(Attempt::Stops(ParseError::InvalidExtension));
    };
    match private.push(subtag) {
        Ok(()) => Ok(Attempt::Goes(LocaleStage::InPrivate(id, extensions, private))),
        Err(error) => {
            drop((id, extensions, private));
            Err(error)
        }
    }
}

/// The stage after one more piece, or the fault there. `AllocError`: out of memory. It allocates only for one more
/// variant, in an extension, for one that ends and has entries or no rule of its own, and for a private subtag.
pub fn next_stage(
    alloc: Global,
    stage: LocaleStage,
    piece: &[u8],
) -> Result<Attempt<LocaleStage>, AllocError>
    ensures step { IfOk result (GoesOn (stage_view stage) piece.now) }
    ensures room { tag_grows_at (stage_view stage) piece.now ≡ false → HasFewBefore (stage_view stage) → IsOk result }
{
    match stage {
        LocaleStage::InLanguage(language) => after_language(alloc, language, piece),
        LocaleStage::InExtension(stage) => after_extension(alloc, stage, piece),
        LocaleStage::InPrivate(id, extensions, private) => after_private(
            id, extensions, private, piece,
        ),
    }
}

// The extensions with these private subtags.
fn with_private(mut extensions: Extensions, private: Private) -> Extensions
    ensures { result ≡ record { blocks = extensions.blocks; own = private } }
{
    extensions.private = private;
    extensions
}

// The extensions, with the last one.
fn with_last(
    alloc: Global,
    mut extensions: Extensions,
    last: Part,
) -> Result<Extensions, AllocError>
    ensures value { IfOk result
        (λ e. (key : List ℕ) → HasKey key last
        → e ≡ record { blocks = put_meaning key (part_view last) extensions.blocks; own = [] }) }
    ensures room { is_other_part last ≡ false → IsOk result }
{
    put_part(&mut extensions, last)?;
    Ok(with_private(extensions, Private::new(alloc)))
}

// The locale of an extension that is read last, and has a piece.
fn ended_body(
    alloc: Global,
    id: LanguageIdentifier,
    extensions: Extensions,
    body: BodyStage,
) -> Result<Attempt<Locale>, AllocError>
    ensures ends { (seen : List (List ℕ))
        → IfOk result (Ends (InBlock id seen extensions.blocks (body_key body) (body_view body))) }
    ensures room { body_keeps (body_view body) ≡ false → IsOk result }
{
    match body_finish(alloc, body) {
        Ok(Some(last)) => match with_last(alloc, extensions, last) {
            Ok(extensions) => Ok(Attempt::Goes(Locale { id, extensions })),
            Err(error) => {
                drop(id);
                Err(error)
            }
        },
        Ok(None) => {
            drop((id, extensions));
            Ok(Attempt::Stops(ParseError::InvalidExtension))
        }
        Err(error) => {
            drop((id, extensions));
            Err(error)
        }
    }
}

// The locale of an extension that is read last.
fn ended_extension(alloc: Global, stage: ExtensionStage) -> Result<Attempt<Locale>, AllocError>
    ensures ends { IfOk result (Ends (block_view stage.id stage.seen stage.extensions.blocks stage.body stage.filled)) }
    ensures room { tag_keeps (block_view stage.id stage.seen stage.extensions.blocks stage.body stage.filled) ≡ false
        → IsOk result }
{
    let ExtensionStage {
        id,
        seen,
        extensions,
        body,
        filled,
    } = stage;
    drop(seen);
    if filled {
        ended_body(alloc, id, extensions, body)
    } else {
        drop((id, extensions, body));
        Ok(Attempt::Stops(ParseError::InvalidExtension))
    }
}

/// The locale that was read, or the fault at the end. `AllocError`: out of memory. It allocates only for a last
/// extension that has entries or no rule of its own.
pub fn finished(alloc: Global, stage: LocaleStage) -> Result<Attempt<Locale>, AllocError>
    ensures ends { IfOk result (Ends (stage_view stage)) }
    ensures room { tag_keeps (stage_view stage) ≡ false → IsOk result }
{
    match stage {
        LocaleStage::InLanguage(None) => Ok(Attempt::Stops(ParseError::InvalidLanguage)),
        LocaleStage::InLanguage(Some(id)) => Ok(Attempt::Goes(Locale {
            id: id.settled(),
            extensions: Extensions::new(alloc),
        })),
        LocaleStage::InExtension(stage) => ended_extension(alloc, stage),
        LocaleStage::InPrivate(id, extensions, private) => {
            if private.is_empty() {
                drop((id, extensions, private));
                return Ok(Attempt::Stops(ParseError::InvalidExtension));
            }
            Ok(Attempt::Goes(Locale {
                id,
                extensions: with_private(extensions, private),
            }))
        }
    }
}
