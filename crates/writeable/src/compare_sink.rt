//! The byte order of a text against given bytes, found while the text is written.

ghost use Rattle.std.specs.Prelude.{◌≡◌, ℕ, List, [], ◌∷◌, false, IsTrue};
ghost use Rattle.std.specs.declared.cmp.Ordering.TheVariants.{Equal};
ghost use Rattle.writeable.specs.AnnotatedText.{text_of};
ghost use Rattle.writeable.specs.Order.{byte_order};

use crate::error::Error;
use crate::part::Part;
use crate::sink::Sink;
use crate::write::Writeable;
use std::cmp::Ordering;
use std::marker::Model;

/// A sink that compares the text with given bytes, a piece at once where it is alike, and keeps neither: against `a,b`,
/// after `a,` its verdict is `Less`.
///
/// It never refuses and does not allocate.
#[derive(Drop)]
pub struct CompareSink<'b> {
    rest: &'b [u8],
    so_far: Ordering,
}

impl<'b> Model for CompareSink<'b> {
    ghost use Rattle.writeable.specs.Order.{Comparison};

    ghost Value = { Comparison };

    ghost view = { λ s. record { rest = s.rest.now; so_far = s.so_far } };
}

impl<'b> CompareSink<'b> {
    ghost use Rattle.writeable.specs.Order.{Compares, order_given};

    /// A sink that compares with `other`: with `a,` the verdict is `Less` before anything is written. It does not
    /// allocate.
    pub fn new(other: &'b [u8]) -> Self
        ensures { result ≡ record { rest = other.now; so_far = Equal } }
    {
        CompareSink {
            rest: other,
            so_far: Ordering::Equal,
        }
    }

    /// The order of the text so far against the bytes: `a,` against `a,b` is `Less`. It does not allocate.
    pub fn verdict(&self) -> Ordering
        ensures { result ≡ order_given self.now.so_far self.now.rest [] }
    {
        if self.so_far == Ordering::Equal && !self.rest.is_empty() {
            Ordering::Less
        } else {
            self.so_far
        }
    }

    // Takes a whole piece where the bytes go on with it; else nothing.
    fn take_alike(&mut self, piece: &[u8]) -> bool
        ensures alike { IsTrue result → Compares self.old piece.now self.new }
        ensures other { result ≡ false → self.new ≡ self.old }
    {
        match self.rest.strip_prefix(piece) {
            Some(rest) => {
                self.rest = rest;
                true
            }
            None => false,
        }
    }

    fn take(&mut self, byte: u8)
        ensures { Compares self.old (byte ∷ []) self.new }
    {
        if self.so_far == Ordering::Equal {
            match self.rest.split_first() {
                None => self.so_far = Ordering::Greater,
                Some((first, more)) => {
                    self.so_far = byte.cmp(first);
                    self.rest = more;
                }
            }
        }
    }
}

impl<'b> Sink for CompareSink<'b> {
    ghost use Rattle.std.specs.Prelude.{false};
    ghost use Rattle.writeable.specs.AnnotatedText.{text_of};
    ghost use Rattle.writeable.specs.Order.{Compares};
    ghost use Rattle.writeable.specs.SinkLaws.{compared_nothing, compared_joins};

    ghost takes = { λ s es t. Compares s (text_of es) t };

    ghost lacks_room = { λ _ _. ⊥ };

    ghost refused = { λ _. false };

    ghost lacks_more = { λ _ _ _ lacking. lacking };

    ghost nothing = { compared_nothing };

    ghost joins = { λ s t u first second begun _ ended. compared_joins s t u first second begun ended };

    fn has_refused(&self) -> bool {
        false
    }

    #[tactic(auto, using(crate::proofs::AnnotatedTextLemmas::text_of_bytes))]
    fn write_str(&mut self, text: &str) -> Result<(), Error> {
        let bytes = text.as_bytes();
        if self.take_alike(bytes) {
            return Ok(());
        }
        for byte in bytes {
            self.take(*byte);
        }
        Ok(())
    }

    #[tactic(auto, unfolding(crate::specs::AnnotatedText::opening))]
    fn open_part(&mut self, _part: Part) -> Result<(), Error> {
        Ok(())
    }

    #[tactic(auto, unfolding(crate::specs::AnnotatedText::closing))]
    fn close_part(&mut self) -> Result<(), Error> {
        Ok(())
    }
}

/// The byte order of the text of `value` against `other`; the text is not built.
///
/// The first byte that differs decides; else the shorter one is less: `a,b` against `a,` is
/// `Greater`. It does not allocate.
pub fn strict_cmp<T: Writeable>(value: &T, other: &[u8]) -> Ordering
    ensures { result ≡ byte_order (text_of (T.events value.now)) other.now }
{
    let mut sink = CompareSink::new(other);
    let _written = value.write_text(&mut sink);
    sink.verdict()
}
