//! The bytes of a text, counted as they are written and not kept.

ghost use Rattle.std.specs.Prelude.{◌≡◌, false, OnOk, OnErr, is_err};
ghost use Rattle.writeable.specs.AnnotatedText.{bytes};
ghost use Rattle.writeable.specs.HeldCount.{Counts, PassesLimit};
ghost use Rattle.writeable.specs.Taking.{HasBegun};

use crate::error::Error;
use crate::part::Part;
use crate::sink::Sink;
use std::marker::Model;

/// A sink that counts the bytes of the text, in a `u64`, and keeps nothing else: after `a,b` the
/// count is 3.
///
/// A call is refused exactly where the count would pass the greatest `u64`; a refused `write_str`
/// leaves the count as it was. It does not allocate.
#[derive(Clone, Copy, Debug)]
pub struct CountSink {
    count: u64,
    refused: bool,
}

impl Model for CountSink {
    ghost use Rattle.writeable.specs.HeldCount.{HeldCount};

    ghost Value = { HeldCount };

    ghost view = { λ s. record { count = s.count; refused = s.refused } };

    ghost inverse = { λ s. record { count = s.count; refused = s.refused } };
}

impl CountSink {
    /// A sink that has counted nothing: its count is 0. It does not allocate.
    pub fn new() -> Self
        ensures { result ≡ record { count = 0; refused = false } }
    {
        CountSink {
            count: 0,
            refused: false,
        }
    }

    /// How many bytes were written: 3 after `a,b`. It does not allocate.
    pub fn count(&self) -> u64
        ensures { result ≡ self.now.count }
    {
        self.count
    }
}

impl Sink for CountSink {
    ghost use Rattle.std.specs.Prelude.{Bool};
    ghost use Rattle.writeable.specs.HeldCount.{HeldCount, Counts, PassesLimit};
    ghost use Rattle.writeable.specs.SinkLaws.{passes_more, counts_nothing, counts_joined};

    ghost takes = { Counts };

    ghost lacks_room = { PassesLimit };

    ghost refused = { λ s. s.refused };

    ghost lacks_more = { passes_more };

    ghost nothing = { counts_nothing };

    ghost joins = { λ s t u first second begun _ ended. counts_joined s t u first second begun ended };

    fn has_refused(&self) -> bool {
        self.refused
    }

    #[tactic(auto, using(crate::proofs::AnnotatedTextLemmas::text_of_bytes), unfolding(crate::specs::HeldCount::count_limit))]
    fn write_str(&mut self, text: &str) -> Result<(), Error>
        requires { self.old.refused ≡ false }
        ensures ok { OnOk result (Counts self.old (bytes text.now) self.new) }
        ensures refused { self.new.refused ≡ is_err result }
        ensures begun { OnErr result (HasBegun Counts PassesLimit self.old (bytes text.now) self.new) }
        ensures kept { OnErr result (self.new.count ≡ self.old.count) }
    {
        match self.count.checked_add(text.len() as u64) {
            Some(count) => {
                self.count = count;
                Ok(())
            }
            None => {
                self.refused = true;
                Err(Error)
            }
        }
    }

    #[tactic(auto, unfolding(crate::specs::AnnotatedText::opening))]
    fn open_part(&mut self, _part: Part) -> Result<(), Error> {
        Ok(())
    }

    #[tactic(auto, unfolding(crate::specs::AnnotatedText::closing))]
    fn close_part(&mut self) -> Result<(), Error> {
        Ok(())
    }
}
