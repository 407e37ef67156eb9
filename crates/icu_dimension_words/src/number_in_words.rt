//! A number with its words, as it is written.

ghost use Rattle.std.specs.Prelude.{◌≡◌};
ghost use Rattle.icu_dimension_words.specs.HeldWords.{borrowed_word};

use crate::sides::write_side;
use crate::word::{BorrowedWord, WordKind};
use icu_decimal_plain::FormattedDecimal;
use std::fmt;
use std::marker::Model;
use writeable::{Error, Sink, Writeable, display};

/// A number with its words: `-5 kilometers`, or `متر`. It borrows the number, the tables and the words.
///
/// The parts are those of the number, and `UNIT` or `CURRENCY`, which each text of the words is, without the blanks and
/// the marks of direction at its ends.
#[derive(Debug, Drop)]
pub struct NumberInWords<'l> {
    number: FormattedDecimal<'l>,
    word: BorrowedWord<'l>,
    kind: WordKind,
}

impl<'l> Model for NumberInWords<'l> {
    ghost use Rattle.icu_dimension_words.specs.WordsText.{NumberWithWord};

    ghost Value = { NumberWithWord };

    ghost use Rattle.icu_dimension_words.specs.HeldWords.{borrowed_word};

    ghost view = { λ n. record { number = n.number; word = borrowed_word n.word; kind = n.kind } };
}

impl<'l> NumberInWords<'l> {
    // The number with these words.
    pub(crate) fn new(number: FormattedDecimal<'l>, word: BorrowedWord<'l>, kind: WordKind) -> Self
        ensures { result ≡ record { number = number.entry; word = borrowed_word word.entry; kind = kind } }
    {
        NumberInWords { number, word, kind }
    }
}

/// The number between its words, and their parts: `5 kilometers`; or the text without the number.
///
/// `Error`, only where the sink refused: it has taken a beginning. Writing allocates only what the sink does.
impl<'l> Writeable for NumberInWords<'l> {
    ghost use Rattle.icu_dimension_words.specs.WordsText.{words_events};

    ghost events = { words_events };

    fn write_to<S: Sink>(&self, sink: &mut S) -> Result<(), Error> {
        match self.word {
            BorrowedWord::Around(before, after) => {
                write_side(self.kind.part(), before, sink)?;
                self.number.write_to(sink)?;
                write_side(self.kind.part(), after, sink)
            }
            BorrowedWord::Bare(text) => write_side(self.kind.part(), text, sink),
        }
    }
}

/// The same text, without its parts: `5 kilometers`. It allocates only what the writer does.
impl<'l> fmt::Display for NumberInWords<'l> {
    ghost use Rattle.std.specs.Prelude.{Some};
    ghost use Rattle.writeable.specs.AnnotatedText.{text_of};
    ghost use Rattle.icu_dimension_words.specs.WordsText.{words_events};

    ghost output = { λ n. Some (text_of (words_events n)) };

    fn fmt<W: fmt::Write>(&self, f: &mut fmt::Formatter<W>) -> fmt::Result {
        display(self, f)
    }
}
