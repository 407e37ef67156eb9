//! What hands out the formatter of a line, made now or kept from earlier lines.

ghost use Rattle.std.specs.Prelude.{◌≡◌, ◌∷◌, List, Option, Some, None, IfOk, IsTrue, OnOk, OnErr};
ghost use Rattle.locale_numbers_book.specs.Book.{BookTables};
ghost use Rattle.locale_numbers.specs.FormatterKeys.{finds};
ghost use Rattle.locale_numbers.specs.KeptAnswers.{Keeping};
ghost use Rattle.locale_numbers.specs.KeptFormatters.{IsMadeFor, Kept, StillKeeps};
ghost use Rattle.locale_numbers.specs.declared.formatter_key.FormatterKey.{FormatterKey};

use crate::formatter_key::FormatterKey;
use crate::kept_formatter::KeptFormatter;
use locale_numbers_cache::Hashed;
use std::alloc::AllocError;

// One that hands out formatters, made now or kept from earlier lines. It notes whether the one that was found last is
// that of the line, and then looks for none.
pub(crate) trait Formatters<'a> {
    // The book that has their tables, which no call changes.
    ghost book: { Self → BookTables };

    // What it needs so that it can hand one out; it has it again after each call.
    ghost is_ready: { Self → Type 0 };

    // Which formatters it will keep, and how many it will have made, once lines with these keys are answered too.
    ghost keeping_over: { Self → List (Option FormatterKey) → Keeping };

    // Finding the formatter of a key may allocate.
    ghost may_take_memory: { Self → FormatterKey → Type 0 };

    // What is kept for a key, where anything is.
    ghost kept_for: { Self → FormatterKey → Option Kept };

    // The formatter that was found last is that of the key.
    ghost holds: { Self → FormatterKey → Type 0 };

    // What it notes is right for a line with the key: where it says that the formatter that was found last is that of
    // the line, this is the key's.
    ghost is_right_for: { Self → FormatterKey → Type 0 };

    /// Finds the formatter of a key; `false` where the book lacks one of its tables, or the rules that it needs. It looks
    /// for none where it notes that the one that was found last is that of the line. The conditions are that it is ready
    /// to find one, and that what it notes is right for the key.
    fn find(&mut self, key: &Hashed<FormatterKey>) -> Result<bool, AllocError>
        requires ready { is_ready self.old }
        requires right { is_right_for self.old key.now }
        ensures value { IfOk result (λ found. found ≡ finds (book self.old) key.now) }
        ensures formatter { IfOk result (λ found. IsTrue found → holds self.new key.now) }
        // What is kept for the key is what was kept for it.
        ensures held { IfOk result (λ found. IsTrue found → (kept : Kept) →
            kept_for self.old key.now ≡ Some kept → kept_for self.new key.now ≡ Some kept) }
        // All that was kept is kept on, but what was dropped to make room; also where memory is refused.
        ensures kept { StillKeeps (kept_for self.old) (may_take_memory self.new) (kept_for self.new) }
        ensures counted { OnOk result ((more : List (Option FormatterKey)) →
            keeping_over self.old (Some key.now ∷ more) ≡ keeping_over self.new more) }
        ensures same { book self.new ≡ book self.old }
        ensures ready { is_ready self.new }
        ensures right { is_right_for self.new key.now }
        ensures room { OnErr result (may_take_memory self.old key.now) };

    /// The formatter of a key. The condition is that it was found last. It does not allocate.
    fn found(&self, key: &Hashed<FormatterKey>) -> &KeptFormatter<'a>
        requires { holds self.now key.now }
        ensures made { IsMadeFor (book self.now) key.now result.now }
        ensures held { (kept : Kept) → kept_for self.now key.now ≡ Some kept → kept ≡ result.now }
        // To find it again would change nothing.
        ensures again { (more : List (Option FormatterKey)) → keeping_over self.now (Some key.now ∷ more)
            ≡ keeping_over self.now more };

    // A line that asks for none changes nothing.
    ghost changes_none: { (s : Self) (more : List (Option FormatterKey))
        → keeping_over s (None ∷ more) ≡ keeping_over s more };
}
