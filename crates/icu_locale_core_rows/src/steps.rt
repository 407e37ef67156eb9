//! Rows of readers that go piece by piece, by steps that the inner crates alone have.

use crate::call::Call;
use icu_locale_core_keywords_fields::{
    EntriesOf, EntryKind, HeadedStage, NoHead, headed_after, headed_finish,
};
use icu_locale_core_langid::{LanguageStage, language_after};
use icu_locale_core_subtags::{Step, SubtagIterator};
use rows::{Stop, put_last_written, put_text};
use std::alloc::{AllocError, Global};

/// Writes the language identifier after the pieces of a text and one more, and whether that one was taken.
pub fn language_behind(call: &Call<'_>, out: &mut String) -> Result<(), Stop> {
    let stage = language_stage(call.alloc, call.first)?;
    match language_after(call.alloc, stage, call.second.as_bytes())? {
        Step::Taken(stage) => put_stage(out, stage, " true"),
        Step::Refused(stage) => put_stage(out, stage, " false"),
    }
}

// The stage after the pieces of a text, without those that are refused.
fn language_stage(alloc: Global, front: &str) -> Result<Option<LanguageStage>, AllocError> {
    let mut stage = None;
    for piece in SubtagIterator::new(front.as_bytes()) {
        stage = match language_after(alloc, stage, piece)? {
            Step::Taken(next) => next,
            Step::Refused(same) => same,
        };
    }
    Ok(stage)
}

fn put_stage(out: &mut String, stage: Option<LanguageStage>, behind: &str) -> Result<(), Stop> {
    match stage {
        Some(stage) => put_last_written(out, stage.settled())?,
        None => put_text(out, "-")?,
    }
    put_text(out, behind)
}

/// The entries of the pieces between spaces, without those that are refused; where the last entry may not end, `-` is
/// the answer.
pub fn headed<K: EntryKind>(call: &Call<'_>, out: &mut String) -> Result<EntriesOf<K>, Stop> {
    let stage = stage_of::<K>(call.alloc, call.first)?;
    match headed_finish(call.alloc, stage)? {
        Some((_, map)) => Ok(map),
        None => {
            put_text(out, "-")?;
            Err(Stop::Written)
        }
    }
}

fn stage_of<K: EntryKind>(alloc: Global, pieces: &str) -> Result<HeadedStage<(), K>, AllocError> {
    let mut stage: HeadedStage<(), K> = HeadedStage::InHead(());
    for piece in pieces.split(' ') {
        stage = match headed_after::<NoHead, K>(alloc, stage, piece.as_bytes())? {
            Step::Taken(next) => next,
            Step::Refused(same) => same,
        };
    }
    Ok(stage)
}
