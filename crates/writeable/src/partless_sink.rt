//! Writing into another sink without the parts.

use crate::error::Error;
use crate::part::Part;
use crate::sink::Sink;

// A sink that passes on the bytes and leaves out the parts.
pub(crate) struct PartlessSink<'s, S: Sink> {
    pub(crate) to: &'s mut S,
}

impl<'s, S: Sink> Sink for PartlessSink<'s, S> {
    ghost use Rattle.writeable.specs.AnnotatedText.{without_parts};
    ghost use Rattle.writeable.specs.TakenText.{TakesText, text_lacks_more, text_nothing_taken, text_taken_joins};

    ghost takes = { λ s es t. TakesText S.takes s.to es t.to };

    ghost lacks_room = { λ s es. S.lacks_room s.to.now (without_parts es) };

    ghost refused = { λ s. S.refused s.to.now };

    ghost lacks_more = { λ s first second lacks. text_lacks_more S.takes S.lacks_room S.lacks_more
        s.to.now first second lacks };

    ghost nothing = { λ s. text_nothing_taken S.takes S.nothing s.to };

    ghost joins = { λ s t u first second begun going ended. text_taken_joins S.takes S.refused S.joins
        s.to t.to u.to first second begun going ended };

    fn has_refused(&self) -> bool {
        self.to.has_refused()
    }

    #[tactic(auto, using(crate::proofs::AnnotatedTextLemmas::text_of_bytes))]
    fn write_str(&mut self, text: &str) -> Result<(), Error> {
        self.to.write_str(text)
    }

    fn open_part(&mut self, _part: Part) -> Result<(), Error> {
        Ok(())
    }

    fn close_part(&mut self) -> Result<(), Error> {
        Ok(())
    }
}
