//! What an open handle has.

ghost use Rattle.std.specs.Prelude.{◌≡◌, IfSome, Some, None, false, is_some, option_map, refl};
ghost use Rattle.legumeyet_c.specs.Kinds.{answers_in, book_in, format_in, is_kept};
ghost use Rattle.legumeyet_c.specs.Opened.{opened};

use crate::held_answers::HeldAnswers;
use crate::held_formatter::HeldFormatter;
use locale_numbers::Book;

/// What an open handle has: a book, what numbers are written with, or what answers lines.
#[derive(Drop)]
pub enum Content {
    /// A book.
    Book(Book),
    /// A book that is kept for the rest of the run.
    Kept(&'static Book),
    /// What numbers are written with.
    Formatter(HeldFormatter),
    /// What answers lines.
    Answers(HeldAnswers),
    /// Nothing yet: no handle has it open.
    Nothing,
}

// What the handles of one kind have open.
pub(crate) trait ContentKind: Drop {
    ghost use Rattle.std.specs.Prelude.{Option};
    ghost use Rattle.legumeyet_c.specs.declared.content.Content.{Content};

    // what it has open: nothing where it is closed, or has a content of another kind
    ghost open_in: { Option Content → Option Self };

    /// What a content has, where it is of this kind.
    fn of_content(content: &Content) -> Option<&Self>
        ensures { option_map (λ held. held.now) result ≡ open_in (Some content.now) };

    /// The content that has it.
    fn into_content(self) -> Content
        ensures held { open_in (Some result) ≡ Some self }
        ensures unkept { is_kept (Some result) ≡ false };

    // a closed one has nothing open
    ghost closed: { open_in None ≡ None };
}

// The book of a content, where it is kept.
pub(crate) fn kept_in(content: &Content) -> Option<&'static Book>
    ensures value { IfSome result (λ kept. book_in (Some content.now) ≡ Some kept.now) }
    ensures whether { is_some result ≡ is_kept (Some content.now) }
{
    match content {
        Content::Kept(book) => Some(*book),
        Content::Book(_) | Content::Formatter(_) | Content::Answers(_) | Content::Nothing => None,
    }
}

impl ContentKind for Book {
    ghost open_in = { book_in };

    fn of_content(content: &Content) -> Option<&Book> {
        match content {
            Content::Book(book) => Some(book),
            Content::Kept(book) => Some(*book),
            Content::Formatter(_) | Content::Answers(_) | Content::Nothing => None,
        }
    }

    fn into_content(self) -> Content {
        Content::Book(self)
    }

    ghost closed = { refl };
}

impl ContentKind for HeldFormatter {
    ghost open_in = { format_in };

    fn of_content(content: &Content) -> Option<&HeldFormatter> {
        match content {
            Content::Formatter(held) => Some(held),
            Content::Book(_) | Content::Kept(_) | Content::Answers(_) | Content::Nothing => None,
        }
    }

    fn into_content(self) -> Content {
        Content::Formatter(self)
    }

    ghost closed = { refl };
}

impl ContentKind for HeldAnswers {
    ghost open_in = { answers_in };

    fn of_content(content: &Content) -> Option<&HeldAnswers> {
        match content {
            Content::Answers(answers) => Some(answers),
            Content::Book(_) | Content::Kept(_) | Content::Formatter(_) | Content::Nothing => None,
        }
    }

    fn into_content(self) -> Content {
        Content::Answers(self)
    }

    ghost closed = { refl };
}

// The book that a handle has open, where it has one.
pub(crate) fn opened_book(content: Option<&Content>) -> Option<&Book>
    ensures { option_map (λ book. book.now) result ≡ book_in (opened content.entry) }
{
    Book::of_content(content?)
}

// What numbers are written with, where a handle has it open.
pub(crate) fn formatter_in(content: Option<&Content>) -> Option<&HeldFormatter>
    ensures { option_map (λ held. held.now) result ≡ format_in (opened content.entry) }
{
    HeldFormatter::of_content(content?)
}
