//! Printing the extensions of a tag, in the order of a tag.

ghost use Rattle.std.specs.Prelude.{◌≡◌, ◌≤◌, ◌&&◌, false, is_err, length, take, drop, IfOk, OnOk, OnErr};
ghost use Rattle.writeable.specs.AnnotatedText.{bytes};
ghost use Rattle.writeable.specs.Taking.{HasBegun};
ghost use Rattle.icu_locale_core_grammar.specs.NormalText.{block_pieces, other_blocks, before_transform as number_before};
ghost use Rattle.icu_locale_core_grammar.specs.TagStages.{has_none};
ghost use Rattle.icu_locale_core_extensions.specs.ExtensionText.{placed, ordered_events};
ghost use Rattle.icu_locale_core_extensions.specs.ExtensionsText.{extensions_pieces};

use crate::block_writing::write_placed;
use crate::extensions::Extensions;
use crate::other::Other;
use std::cmp::Ordering;
use std::fmt;
use writeable::{CountSink, Error, LengthHint, Sink, Writeable, display};

// How many of these extensions come before `t`, as they are given: all before the first whose singleton is above `t`.
fn before_transform(others: &[Other]) -> usize
    ensures value { result ≡ number_before others.now }
    ensures bound { result ≤ length others.now }
{
    for (index, other) in others.iter().enumerate() {
        if "t".cmp(other.get_ext_str()) == Ordering::Less {
            return index;
        }
    }
    others.len()
}

// Writes the extensions one after another, each as `write_placed` does.
fn write_others<S: Sink>(others: &[Other], mut begins: bool, sink: &mut S) -> Result<bool, Error>
    requires { S.refused sink.old ≡ false }
    ensures ok { OnOk result
        (S.takes sink.old (bytes (placed begins (block_pieces (other_blocks others.now)))) sink.new) }
    ensures still { IfOk result (λ still. still ≡ (begins && has_none (block_pieces (other_blocks others.now)))) }
    ensures refused { S.refused sink.new ≡ is_err result }
    ensures begun { OnErr result
        (HasBegun S.takes S.lacks_room sink.old (bytes (placed begins (block_pieces (other_blocks others.now))))
        sink.new) }
{
    for other in others {
        begins = write_placed(other, begins, sink)?;
    }
    Ok(begins)
}

// Writes the first extensions, `t`, `u`, the last extensions and the private subtags.
fn write_in_order<S: Sink>(
    first: &[Other],
    extensions: &Extensions,
    last: &[Other],
    begins: bool,
    sink: &mut S,
) -> Result<bool, Error>
    requires { S.refused sink.old ≡ false }
    ensures ok { OnOk result (S.takes sink.old (ordered_events begins first.now extensions.now last.now) sink.new) }
    ensures refused { S.refused sink.new ≡ is_err result }
    ensures begun { OnErr result
        (HasBegun S.takes S.lacks_room sink.old (ordered_events begins first.now extensions.now last.now) sink.new) }
{
    let begins = write_others(first, begins, sink)?;
    let begins = write_placed(&extensions.transform, begins, sink)?;
    let begins = write_placed(&extensions.unicode, begins, sink)?;
    let begins = write_others(last, begins, sink)?;
    write_placed(&extensions.private, begins, sink)
}

/// Writes the extensions `u` and `t`, all others and the private subtags in the order of a tag:
/// `a-foo-t-de-u-nu-thai-z-bar-x-b`.
///
/// Each piece has a hyphen before it, but not the first of all where it `begins` the text. The others keep their order;
/// `t` and `u` come before the first of them whose singleton is above `t`. An empty extension writes nothing. The
/// condition is that the sink has not refused yet. `Error`, only where the sink refused: it has taken a beginning. Only
/// the sink may allocate. Source: UTS 35, section 3.2.1.
pub fn write_extensions<S: Sink>(
    extensions: &Extensions,
    begins: bool,
    sink: &mut S,
) -> Result<(), Error>
    requires { S.refused sink.old ≡ false }
    ensures ok { OnOk result (S.takes sink.old (bytes (placed begins (extensions_pieces extensions.now))) sink.new) }
    ensures refused { S.refused sink.new ≡ is_err result }
    ensures begun { OnErr result
        (HasBegun S.takes S.lacks_room sink.old (bytes (placed begins (extensions_pieces extensions.now))) sink.new) }
{
    let others = extensions.other.as_slice();
    let (first, last) = others.split_at(before_transform(others));
    write_in_order(first, extensions, last, begins, sink)?;
    Ok(())
}

/// The extensions in byte order of their singletons, and the private subtags: `u-nu-thai-x-foo`. Nothing where there
/// are none.
///
/// It is what a tag has of them, without the hyphen before it. Source: UTS 35, section 3.2.1.
impl Writeable for Extensions {
    ghost use Rattle.std.specs.Prelude.{◌≡◌, ◌<◌, ◌^◌, Some, length};
    ghost use Rattle.writeable.specs.AnnotatedText.{bytes, text_of};
    ghost use Rattle.writeable.specs.LengthHint.{IsWithinHint};
    ghost use Rattle.icu_locale_core_extensions.specs.ExtensionsText.{extensions_alone};

    ghost events = { λ e. bytes (extensions_alone e) };

    fn write_to<S: Sink>(&self, sink: &mut S) -> Result<(), Error> {
        write_extensions(self, true, sink)
    }

    #[tactic(auto, using(writeable::proofs::AnnotatedTextLemmas::text_of_bytes))]
    fn writeable_length_hint(&self) -> LengthHint
        ensures within { IsWithinHint result (length (text_of (bytes (extensions_alone self.now)))) }
        ensures low { length (extensions_alone self.now) < 2 ^ 64 → result.low ≡ length (extensions_alone self.now) }
        ensures high { length (extensions_alone self.now) < 2 ^ 64
            → result.high ≡ Some (length (extensions_alone self.now)) }
    {
        let mut sink = CountSink::new();
        match write_extensions(self, true, &mut sink) {
            Ok(()) => LengthHint::exact(sink.count() as usize),
            Err(_) => LengthHint::at_least(usize::MAX),
        }
    }
}

impl fmt::Display for Extensions {
    ghost use Rattle.std.specs.Prelude.{Some};
    ghost use Rattle.icu_locale_core_extensions.specs.ExtensionsText.{extensions_alone};

    ghost output = { λ e. Some (extensions_alone e) };

    #[tactic(auto, using(writeable::proofs::AnnotatedTextLemmas::text_of_bytes))]
    fn fmt<W: fmt::Write>(&self, f: &mut fmt::Formatter<W>) -> fmt::Result {
        display(self, f)
    }
}

impl fmt::Debug for Extensions {
    ghost use Rattle.std.specs.Prelude.{Some};
    ghost use Rattle.icu_locale_core_extensions.specs.ExtensionsText.{extensions_alone};

    ghost debug_output = { λ e. Some (extensions_alone e) };

    fn fmt<W: fmt::Write>(&self, f: &mut fmt::Formatter<W>) -> fmt::Result {
        fmt::Display::fmt(self, f)
    }
}
