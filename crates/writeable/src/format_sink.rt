//! `Display` of values that are `Writeable`: their texts, without the parts.

ghost use Rattle.std.specs.Prelude.{Some};
ghost use Rattle.std.specs.Fmt.{DisplaysOnOk};
ghost use Rattle.writeable.specs.AnnotatedText.{text_of};

use crate::error::Error;
use crate::part::Part;
use crate::sink::Sink;
use crate::write::Writeable;
use std::fmt;

// The formatter of a `Display` as a sink: the text is shown, the parts are left out.
struct FormatSink<'f, W: fmt::Write> {
    to: &'f mut fmt::Formatter<W>,
    failed: bool,
}

impl<'f, W: fmt::Write> Sink for FormatSink<'f, W> {
    ghost use Rattle.std.specs.Prelude.{Bool, ⊤};
    ghost use Rattle.writeable.specs.Shown.{ShowsText};
    ghost use Rattle.writeable.specs.SinkLaws.{shown_nothing, shown_joins};

    ghost takes = { λ s es t. ShowsText W.write_str_gives s.to es t.to t.failed };

    ghost lacks_room = { λ _ _. ⊤ };

    ghost refused = { λ s. s.failed };

    ghost lacks_more = { λ _ _ _ lacking. lacking };

    ghost nothing = { λ s. shown_nothing W.write_str_gives s.to s.failed };

    ghost joins = { λ s t u first second begun going ended.
        shown_joins W.write_str_gives s.to t.to u.to t.failed u.failed first second begun going ended };

    fn has_refused(&self) -> bool {
        self.failed
    }

    #[tactic(auto, using(crate::proofs::AnnotatedTextLemmas::text_of_bytes))]
    fn write_str(&mut self, text: &str) -> Result<(), Error> {
        match self.to.write_str(text) {
            Ok(()) => Ok(()),
            Err(_) => {
                self.failed = true;
                Err(Error)
            }
        }
    }

    #[tactic(auto, unfolding(crate::specs::AnnotatedText::opening))]
    fn open_part(&mut self, _part: Part) -> Result<(), Error> {
        Ok(())
    }

    #[tactic(auto, unfolding(crate::specs::AnnotatedText::closing))]
    fn close_part(&mut self) -> Result<(), Error> {
        Ok(())
    }
}

/// Shows `value` in `f`: the text that `write_text` writes.
///
/// Each `Display` of a value that is `Writeable` is this call. `a,b` with parts is shown as `a,b`.
/// `fmt::Error`, only where the formatter fails. It allocates only what the formatter and the value
/// do.
#[tactic(auto, using(crate::proofs::AnnotatedTextLemmas::text_of_bytes))]
pub fn display<T: Writeable, W: fmt::Write>(value: &T, f: &mut fmt::Formatter<W>) -> fmt::Result
    ensures { DisplaysOnOk W.write_str_gives f.old result
        (Some (text_of (T.events value.now))) f.new }
{
    let mut sink = FormatSink {
        to: f,
        failed: false,
    };
    let written = value.write_text(&mut sink);
    let FormatSink { to: _, failed: _ } = sink;
    match written {
        Ok(()) => Ok(()),
        Err(_) => Err(fmt::Error),
    }
}
