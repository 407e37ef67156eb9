//! Reading a head and entries after it, piece by piece.

ghost use Rattle.std.specs.Prelude.{◌≡◌, true, false, Some, None, IfOk, IsOk, OnOk, MatchOption, Bool, List, ℕ, Option};
ghost use Rattle.icu_locale_core_grammar.specs.Subtags.{lower};
ghost use Rattle.icu_locale_core_grammar.specs.PartReaders.{nothing_after};
ghost use Rattle.icu_locale_core_grammar.specs.Stepping.{headed_after, headed_ends, InHead, InEntry};
ghost use Rattle.icu_locale_core_keywords_fields.specs.HeadedView.{headed_view, finished, ends_anywhere};
ghost use Rattle.icu_locale_core_keywords_fields.specs.Allocation.{grows_at, keeps_last};
ghost use Rattle.icu_locale_core_keywords_fields.specs.Steps.{IsStep};

use crate::entries::EntriesOf;
use crate::kind::EntryKind;
use crate::value::ValueOf;
use icu_locale_core_subtags::{Step, SubtagOf};
use std::alloc::{AllocError, Global};

/// How the head before the entries is read, piece by piece; it may end anywhere.
///
/// The head of `u` are attributes, that of `t` a language. An empty type names the way of reading.
pub trait HeadReader {
    ghost use Rattle.std.specs.Prelude.{true, Bool, List, ℕ, Option};

    /// What was read of the head.
    type Stage;

    // the stage after a piece
    ghost step: { Self.Stage → List ℕ → Option Self.Stage };

    // whether a piece may make the stage grow, as any may where a head does not say
    ghost grows: { Self.Stage → List ℕ → Bool } = { λ s p. true };

    /// The stage after a piece. `AllocError`: out of memory. Only a piece that may make the stage grow allocates.
    fn after(
        alloc: Global,
        stage: Self::Stage,
        piece: &[u8],
    ) -> Result<Step<Self::Stage>, AllocError>
        ensures step { IfOk result (λ s. IsStep step (λ t. t) stage piece.now s) }
        ensures room { grows stage piece.now ≡ false → IsOk result };
}

/// No head: keywords or fields by themselves.
pub struct NoHead;

impl HeadReader for NoHead {
    type Stage = ();

    ghost step = { nothing_after };

    ghost grows = { λ s p. false };

    fn after(_alloc: Global, stage: (), _piece: &[u8]) -> Result<Step<()>, AllocError> {
        Ok(Step::Refused(stage))
    }
}

/// How far a head and the entries after it are read. It begins with the stage `InHead` of a head that is not begun.
#[derive(Drop)]
pub enum HeadedStage<H, K: EntryKind> {
    /// The head is read.
    InHead(H),
    /// The head, the entries before, the key and the value of the entry that is read, and whether it may end.
    InEntry(H, EntriesOf<K>, SubtagOf<K, 2>, ValueOf<K>, bool),
}

// The key in a piece, in lower case, if the piece is one.
fn read_key<K: EntryKind>(piece: &[u8]) -> Option<SubtagOf<K, 2>>
    ensures { MatchOption result (K.accepts piece.now ≡ false)
        (λ key. (K.accepts piece.now ≡ true) × (key ≡ lower piece.now)) }
{
    SubtagOf::try_from_utf8(piece).ok()
}

// The stage after a head that has ended: the piece opens the first entry, or does not fit.
#[tactic(auto, unfolding(icu_locale_core_grammar::specs::Stepping::headed_after))]
fn after_ended_head<H, K: EntryKind>(
    alloc: Global,
    head: H,
    piece: &[u8],
) -> Step<HeadedStage<H, K>>
    ensures { (step : H → List ℕ → Option H) → step head piece.now ≡ None
        → IsStep (headed_after step ends_anywhere K.accepts K.needs) headed_view (InHead head) piece.now result }
{
    match read_key(piece) {
        Some(key) => Step::Taken(HeadedStage::InEntry(
            head,
            EntriesOf::new(alloc),
            key,
            ValueOf::new_empty(alloc),
            !K::needs_value(),
        )),
        None => Step::Refused(HeadedStage::InHead(head)),
    }
}

// The stage after an entry that is read: the piece goes into its value, or opens the next entry, or does not fit.
#[tactic(auto, unfolding(icu_locale_core_grammar::specs::Stepping::headed_after))]
fn after_entry<H: Drop, K: EntryKind>(
    alloc: Global,
    head: H,
    mut entries: EntriesOf<K>,
    key: SubtagOf<K, 2>,
    mut value: ValueOf<K>,
    full: bool,
    piece: &[u8],
) -> Result<Step<HeadedStage<H, K>>, AllocError>
    ensures step { (step : H → List ℕ → Option H)
        → IfOk result
        (IsStep (headed_after step ends_anywhere K.accepts K.needs) headed_view
        (InEntry head entries (key, value) full) piece.now) }
    ensures room { (grows : H → List ℕ → Bool)
        → grows_at grows K.accepts (InEntry head entries (key, value) full) piece.now ≡ false → IsOk result }
{
    if value.take_piece(piece)? {
        return Ok(Step::Taken(HeadedStage::InEntry(head, entries, key, value, true)));
    }
    if full {
        if let Some(next) = read_key(piece) {
            entries.put_first(key, value)?;
            return Ok(Step::Taken(HeadedStage::InEntry(
                head,
                entries,
                next,
                ValueOf::new_empty(alloc),
                !K::needs_value(),
            )));
        }
    }
    Ok(Step::Refused(HeadedStage::InEntry(head, entries, key, value, full)))
}

/// The stage of a head and entries after a piece, or the stage as it was where the piece does not fit.
///
/// After `nu-thai` the piece `latn` goes into the value, `ca` opens the next keyword, and `a` is refused.
/// `AllocError`: out of memory. A first key does not allocate, nor does a refused piece after a key.
#[tactic(auto, unfolding(icu_locale_core_grammar::specs::Stepping::headed_after))]
pub fn headed_after<R: HeadReader, K: EntryKind>(
    alloc: Global,
    stage: HeadedStage<R::Stage, K>,
    piece: &[u8],
) -> Result<Step<HeadedStage<R::Stage, K>>, AllocError>
where
    R::Stage: Drop,
    ensures step { IfOk result
        (IsStep (headed_after R.step ends_anywhere K.accepts K.needs) headed_view (headed_view stage) piece.now) }
    ensures room { grows_at R.grows K.accepts (headed_view stage) piece.now ≡ false → IsOk result }
{
    match stage {
        HeadedStage::InHead(head) => match R::after(alloc, head, piece)? {
            Step::Taken(head) => Ok(Step::Taken(HeadedStage::InHead(head))),
            Step::Refused(head) => Ok(after_ended_head(alloc, head, piece)),
        },
        HeadedStage::InEntry(head, entries, key, value, full) => after_entry(
            alloc, head, entries, key, value, full, piece,
        ),
    }
}

/// The head and the entries that were read; `None` where the last entry needs a value and has none.
///
/// `AllocError`: out of memory. It does not allocate where no entry is read, or the last may not end.
pub fn headed_finish<H: Drop, K: EntryKind>(
    alloc: Global,
    stage: HeadedStage<H, K>,
) -> Result<Option<(H, EntriesOf<K>)>, AllocError>
    ensures value { IfOk result (λ m. finished m ≡ headed_ends ends_anywhere (headed_view stage)) }
    ensures room { keeps_last (headed_view stage) ≡ false → IsOk result }
{
    match stage {
        HeadedStage::InHead(head) => Ok(Some((head, EntriesOf::new(alloc)))),
        HeadedStage::InEntry(head, mut entries, key, value, full) => {
            if !full {
                return Ok(None);
            }
            entries.put_first(key, value)?;
            Ok(Some((head, entries)))
        }
    }
}
