//! Writing a subtag: its text, without parts.

use crate::rule::SubtagRule;
use crate::subtag_of::SubtagOf;
use std::fmt;
use writeable::{Error, LengthHint, Sink, Writeable, display};

impl<R: SubtagRule<N>, const N: usize> Writeable for SubtagOf<R, N> {
    ghost use Rattle.std.specs.Prelude.{◌≡◌, Some, length};
    ghost use Rattle.writeable.specs.AnnotatedText.{bytes, text_of};
    ghost use Rattle.writeable.specs.LengthHint.{IsWithinHint};

    ghost events = { λ s. bytes s };

    fn write_to<S: Sink>(&self, sink: &mut S) -> Result<(), Error> {
        sink.write_str(self.as_str())
    }

    #[tactic(auto, using(writeable::proofs::AnnotatedTextLemmas::text_of_bytes))]
    fn writeable_length_hint(&self) -> LengthHint
        ensures within { IsWithinHint result (length (text_of (bytes self.now))) }
        ensures low { result.low ≡ length self.now }
        ensures high { result.high ≡ Some (length self.now) }
    {
        LengthHint::exact(self.as_str().len())
    }
}

impl<R: SubtagRule<N>, const N: usize> fmt::Display for SubtagOf<R, N> {
    ghost use Rattle.std.specs.Prelude.{Some};

    ghost output = { λ s. Some s };

    #[tactic(auto, using(writeable::proofs::AnnotatedTextLemmas::text_of_bytes))]
    fn fmt<W: fmt::Write>(&self, f: &mut fmt::Formatter<W>) -> fmt::Result {
        display(self, f)
    }
}

impl<R: SubtagRule<N>, const N: usize> fmt::Debug for SubtagOf<R, N> {
    fn fmt<W: fmt::Write>(&self, f: &mut fmt::Formatter<W>) -> fmt::Result {
        fmt::Debug::fmt(&self.as_str(), f)
    }
}
