//! Laws over the definitions that the clauses of this crate cite. Each function is a proof: it answers nothing.

ghost use Rattle.legumeyet_c.specs.SmallBooks.{SmallBooksHaveTheFormatters};

use locale_numbers::laws::{is_one_book, selected_books_have_the_formatters};

/// The small book of a tag has the formatters of the whole: for each format what is found in it is what the whole book has
/// for the tag, and what is refused is refused by the whole for the same cause, where the entries are those of the whole.
/// That of `de-AT` has for plain numbers the symbols of `de-AT`, which the world's book has for it.
pub fn small_books_have_the_formatters()
    ensures { SmallBooksHaveTheFormatters }
{
    is_one_book();
    selected_books_have_the_formatters();
}
