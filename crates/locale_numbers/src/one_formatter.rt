//! The formatter of one line.

use crate::formatter_key::FormatterKey;
use crate::formatters::Formatters;
use crate::kept_formatter::{KeptFormatter, made_formatter};
use locale_numbers_book::Tables;
use locale_numbers_cache::Hashed;
use std::alloc::AllocError;

// One for one line: it keeps the formatter that was found, once there is one.
#[derive(Drop)]
pub(crate) struct OneFormatter<'a, T: Tables> {
    /// The tables.
    pub tables: &'a T,
    /// That formatter, where there is one.
    pub made: Option<KeptFormatter<'a>>,
}

/// It is made when it is asked for first.
impl<'a, T: Tables> Formatters<'a> for OneFormatter<'a, T> {
    ghost use Rattle.std.specs.Prelude.{[], ⊤, IfSome, MatchOption, refl};
    ghost use Rattle.locale_numbers.specs.KeptAnswers.{keeping};
    ghost use Rattle.locale_numbers.specs.KeptFormatters.{IsMadeFor};

    ghost book = { λ s. T.book s.tables.now };

    ghost is_ready = { λ s. ⊤ };

    ghost keeping_over = { λ s keys. keeping (T.book s.tables.now) 0 [] 0 };

    ghost may_take_memory = { λ s key. ⊥ };

    ghost kept_for = { λ s key. s.made };

    ghost holds = { λ s key. MatchOption s.made ⊥ (λ made. IsMadeFor (T.book s.tables.now) key made) };

    ghost is_right_for = { λ s key. IfSome s.made (λ made. IsMadeFor (T.book s.tables.now) key made) };

    // It is apart, so that what it takes on the stack is free again where the formatter is used.
    #[inline(never)]
    fn find(&mut self, key: &Hashed<FormatterKey>) -> Result<bool, AllocError> {
        if self.made.is_some() {
            return Ok(true);
        }
        let made = made_formatter(self.tables, &key.value());
        let is_found = made.is_some();
        drop(std::mem::replace(&mut self.made, made));
        Ok(is_found)
    }

    fn found(&self, _key: &Hashed<FormatterKey>) -> &KeptFormatter<'a> {
        match &self.made {
            Some(made) => made,
            None => unreachable!(),
        }
    }

    ghost changes_none = { λ s more. refl };
}
