//! Printing one extension: its singleton, and the pieces after it.

ghost use Rattle.std.specs.Prelude.{◌≡◌, ◌++◌, ◌<◌, ◌^◌, ◌&&◌, false, [], ◌∷◌, is_err, length, flat_map, IfOk, OnOk, OnErr, Some};
ghost use Rattle.writeable.specs.AnnotatedText.{bytes, text_of};
ghost use Rattle.writeable.specs.LengthHint.{IsWithinHint};
ghost use Rattle.writeable.specs.Taking.{HasBegun};
ghost use Rattle.icu_locale_core_grammar.specs.Pieces.{hyphen, hyphened};
ghost use Rattle.icu_locale_core_grammar.specs.TagStages.{has_none};
ghost use Rattle.icu_locale_core_extensions.specs.ExtensionText.{block_text, own_pieces, placed};

use writeable::{CountSink, Error, LengthHint, Sink};

// An extension that prints its singleton and the pieces after it, and nothing where there is no piece.
pub(crate) trait Block {
    ghost use Rattle.std.specs.Prelude.{◌≡◌, false, List, is_err, flat_map, OnOk, OnErr};
    ghost use Rattle.writeable.specs.AnnotatedText.{bytes};
    ghost use Rattle.writeable.specs.Taking.{HasBegun};
    ghost use Rattle.icu_locale_core_grammar.specs.Meaning.{Part};
    ghost use Rattle.icu_locale_core_grammar.specs.Pieces.{hyphened};
    ghost use Rattle.icu_locale_core_grammar.specs.Subtags.{Text};
    ghost use Rattle.icu_locale_core_grammar.specs.TagStages.{has_none};

    // the singleton
    ghost first: { Self → Text };

    // the pieces after it
    ghost behind: { Self → List Text };

    // what they mean
    ghost part: { Self → Part };

    /// Whether there is no piece.
    fn has_no_piece(&self) -> bool
        ensures { result ≡ has_none (behind self.now) };

    /// The singleton, in lower case.
    fn singleton(&self) -> &str
        ensures { result.now ≡ first self.now };

    /// Writes the pieces, each with a hyphen before it.
    fn write_pieces<S: Sink>(&self, sink: &mut S) -> Result<(), Error>
        requires { S.refused sink.old ≡ false }
        ensures ok { OnOk result (S.takes sink.old (bytes (flat_map hyphened (behind self.now))) sink.new) }
        ensures refused { S.refused sink.new ≡ is_err result }
        ensures begun { OnErr result (HasBegun S.takes S.lacks_room sink.old
            (bytes (flat_map hyphened (behind self.now))) sink.new) };
}

// Writes the singleton and the pieces.
fn write_filled<B: Block, S: Sink>(block: &B, sink: &mut S) -> Result<(), Error>
    requires { S.refused sink.old ≡ false }
    ensures ok { OnOk result
        (S.takes sink.old (bytes (B.first block.now) ++ bytes (flat_map hyphened (B.behind block.now))) sink.new) }
    ensures refused { S.refused sink.new ≡ is_err result }
    ensures begun { OnErr result
        (HasBegun S.takes S.lacks_room sink.old
        (bytes (B.first block.now) ++ bytes (flat_map hyphened (B.behind block.now))) sink.new) }
{
    sink.write_str(block.singleton())?;
    block.write_pieces(sink)
}

// Writes a hyphen, the singleton and the pieces.
fn write_after<B: Block, S: Sink>(block: &B, sink: &mut S) -> Result<(), Error>
    requires { S.refused sink.old ≡ false }
    ensures ok { OnOk result
        (S.takes sink.old
        (bytes (hyphen ∷ []) ++ (bytes (B.first block.now) ++ bytes (flat_map hyphened (B.behind block.now))))
        sink.new) }
    ensures refused { S.refused sink.new ≡ is_err result }
    ensures begun { OnErr result
        (HasBegun S.takes S.lacks_room sink.old
        (bytes (hyphen ∷ []) ++ (bytes (B.first block.now) ++ bytes (flat_map hyphened (B.behind block.now))))
        sink.new) }
{
    sink.write_char('-')?;
    write_filled(block, sink)
}

// Writes the singleton and the pieces, with a hyphen before them unless they begin a text.
#[tactic(auto, using(crate::proofs::BlockLemmas::beginning_events, crate::proofs::BlockLemmas::hyphened_events))]
fn write_shown<B: Block, S: Sink>(block: &B, begins: bool, sink: &mut S) -> Result<(), Error>
    requires { S.refused sink.old ≡ false }
    ensures ok { OnOk result
        (S.takes sink.old (bytes (placed begins (B.first block.now ∷ B.behind block.now))) sink.new) }
    ensures refused { S.refused sink.new ≡ is_err result }
    ensures begun { OnErr result
        (HasBegun S.takes S.lacks_room sink.old (bytes (placed begins (B.first block.now ∷ B.behind block.now)))
        sink.new) }
{
    if begins {
        write_filled(block, sink)
    } else {
        write_after(block, sink)
    }
}

// Writes the text, with a hyphen before it unless it begins a text; nothing where there is no piece.
//
// It returns whether what comes next still begins the text.
#[tactic(auto, using(crate::proofs::BlockLemmas::shown, crate::proofs::BlockLemmas::unshown))]
pub(crate) fn write_placed<B: Block, S: Sink>(
    block: &B,
    begins: bool,
    sink: &mut S,
) -> Result<bool, Error>
    requires { S.refused sink.old ≡ false }
    ensures ok { OnOk result
        (S.takes sink.old
        (bytes (placed begins (own_pieces (B.first block.now) (B.behind block.now) (B.part block.now)))) sink.new) }
    ensures still { IfOk result
        (λ still. still
        ≡ (begins && has_none (own_pieces (B.first block.now) (B.behind block.now) (B.part block.now)))) }
    ensures refused { S.refused sink.new ≡ is_err result }
    ensures begun { OnErr result
        (HasBegun S.takes S.lacks_room sink.old
        (bytes (placed begins (own_pieces (B.first block.now) (B.behind block.now) (B.part block.now)))) sink.new) }
{
    if block.has_no_piece() {
        return Ok(begins);
    }
    write_shown(block, begins, sink)?;
    Ok(false)
}

// Writes the text; nothing where there is no piece.
pub(crate) fn write_alone<B: Block, S: Sink>(block: &B, sink: &mut S) -> Result<(), Error>
    requires { S.refused sink.old ≡ false }
    ensures ok { OnOk result
        (S.takes sink.old (bytes (block_text (B.first block.now) (B.behind block.now) (B.part block.now))) sink.new) }
    ensures refused { S.refused sink.new ≡ is_err result }
    ensures begun { OnErr result
        (HasBegun S.takes S.lacks_room sink.old
        (bytes (block_text (B.first block.now) (B.behind block.now) (B.part block.now))) sink.new) }
{
    write_placed(block, true, sink)?;
    Ok(())
}

// How long the text is: exact where a `usize` holds it.
#[tactic(auto, using(writeable::proofs::AnnotatedTextLemmas::text_of_bytes))]
pub(crate) fn length_hint<B: Block>(block: &B) -> LengthHint
    ensures within { IsWithinHint result
        (length (text_of (bytes (block_text (B.first block.now) (B.behind block.now) (B.part block.now))))) }
    ensures low { let size = length (block_text (B.first block.now) (B.behind block.now) (B.part block.now)) in
        size < 2 ^ 64 → result.low ≡ size }
    ensures high { let size = length (block_text (B.first block.now) (B.behind block.now) (B.part block.now)) in
        size < 2 ^ 64 → result.high ≡ Some size }
{
    let mut sink = CountSink::new();
    match write_alone(block, &mut sink) {
        Ok(()) => LengthHint::exact(sink.count() as usize),
        Err(_) => LengthHint::at_least(usize::MAX),
    }
}
