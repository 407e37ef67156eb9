//! A text held in memory, its parts left out.

ghost use Rattle.std.specs.Prelude.{◌≡◌, ◌++◌, false, [], IfOk, IsOk, OnOk, OnErr, is_err};
ghost use Rattle.std.specs.String.{string_bytes};
ghost use Rattle.writeable.specs.AnnotatedText.{bytes};
ghost use Rattle.writeable.specs.HeldText.{HoldsMore, LacksMemory};
ghost use Rattle.writeable.specs.Taking.{HasBegun};

use crate::error::Error;
use crate::part::Part;
use crate::sink::Sink;
use std::alloc::{AllocError, Global};
use std::marker::Model;

/// A sink that holds the text and leaves out the parts: of `a,b` with parts it holds `a,b`.
///
/// It refuses only bytes, and only where it is out of memory; it never refuses a part. A refused `write_str` leaves the
/// text as it was.
#[derive(Drop)]
pub struct TextSink {
    text: String,
    refused: bool,
}

impl Model for TextSink {
    ghost use Rattle.std.specs.String.{string_bytes};
    ghost use Rattle.writeable.specs.HeldText.{HeldText};

    ghost Value = { HeldText };

    ghost view = { λ s. record {
      text = string_bytes s.text;
      refused = s.refused;
    } };
}

impl TextSink {
    /// An empty sink: its text is `""`. It does not allocate.
    pub fn new(alloc: Global) -> Self
        ensures text { result.text ≡ [] }
        ensures refused { result.refused ≡ false }
    {
        TextSink {
            text: String::new(alloc),
            refused: false,
        }
    }

    // An empty sink that has room for `capacity` bytes.
    pub(crate) fn with_capacity(alloc: Global, capacity: usize) -> Result<Self, AllocError>
        ensures text { IfOk result (λ sink. sink.text ≡ []) }
        ensures refused { IfOk result (λ sink. sink.refused ≡ false) }
        ensures succeeds { capacity ≡ 0 → IsOk result }
    {
        Ok(Self::from_string(String::with_capacity(alloc, capacity)?))
    }

    /// A sink that goes on after what a text holds: after `a,` it holds `a,b` after `write_char('b')`. The text is
    /// moved, and keeps its capacity. It does not allocate.
    pub fn from_string(text: String) -> Self
        ensures text { result.text ≡ string_bytes text }
        ensures refused { result.refused ≡ false }
    {
        TextSink {
            text,
            refused: false,
        }
    }

    /// Writes `text` after what the sink holds: `a,` and then `b` are `a,b`.
    ///
    /// `AllocError`: out of memory; the sink is as it was. It allocates only where the text outgrows its capacity; the
    /// empty text is never refused.
    pub fn push_str(&mut self, text: &str) -> Result<(), AllocError>
        ensures ok { OnOk result (self.new ≡ record { text = self.old.text ++ text.now; refused = self.old.refused }) }
        ensures kept { OnErr result (self.new ≡ self.old) }
        ensures succeeds { text.now ≡ [] → IsOk result }
    {
        self.text.push_str(text)
    }

    /// What the sink holds, moved out: `a,b` after `write_str("a,b")`. It does not allocate.
    pub fn into_string(self) -> String
        ensures { string_bytes result ≡ self.text }
    {
        self.text
    }

    /// The text that was written: `a,b` after `write_str("a,")` and `write_char('b')`. It does not allocate.
    pub fn text(&self) -> &str
        ensures { result.now ≡ self.now.text }
    {
        self.text.as_str()
    }
}

impl Sink for TextSink {
    ghost use Rattle.std.specs.Prelude.{Bool};
    ghost use Rattle.writeable.specs.HeldText.{HeldText, HoldsMore, LacksMemory};
    ghost use Rattle.writeable.specs.SinkLaws.{has_text_joined, text_nothing, text_joins};

    ghost takes = { HoldsMore };

    ghost lacks_room = { LacksMemory };

    ghost refused = { λ s. s.refused };

    ghost lacks_more = { λ _ first second lacking. has_text_joined first second lacking };

    ghost nothing = { text_nothing };

    ghost joins = { text_joins };

    fn has_refused(&self) -> bool {
        self.refused
    }

    #[tactic(auto, using(crate::proofs::AnnotatedTextLemmas::text_of_bytes))]
    fn write_str(&mut self, text: &str) -> Result<(), Error>
        requires { self.old.refused ≡ false }
        ensures ok { OnOk result (HoldsMore self.old (bytes text.now) self.new) }
        ensures refused { self.new.refused ≡ is_err result }
        ensures begun { OnErr result (HasBegun HoldsMore LacksMemory self.old (bytes text.now) self.new) }
        ensures kept { OnErr result (self.new.text ≡ self.old.text) }
    {
        match self.text.push_str(text) {
            Ok(()) => Ok(()),
            Err(_) => {
                self.refused = true;
                Err(Error)
            }
        }
    }

    #[tactic(auto, unfolding(crate::specs::AnnotatedText::opening))]
    fn open_part(&mut self, _part: Part) -> Result<(), Error> {
        Ok(())
    }

    #[tactic(auto, unfolding(crate::specs::AnnotatedText::closing))]
    fn close_part(&mut self) -> Result<(), Error> {
        Ok(())
    }
}
