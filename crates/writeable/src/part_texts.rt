//! Parts with their texts.

use crate::part::Part;
use std::iter::FusedIterator;
use std::marker::Model;

/// The parts of a `PartsSink` with their texts, borrowed, in order of opening: of `a,b` with the part A
/// around all of it and B around the comma, A with `a,b` and B with `,`. It never allocates.
#[derive(Drop)]
pub struct PartTexts<'s> {
    pub(crate) text: &'s str,
    pub(crate) rest: &'s [(usize, usize, Part)],
}

impl<'s> Model for PartTexts<'s> {
    ghost use Rattle.std.specs.Prelude.{List, All, map};
    ghost use Rattle.writeable.specs.PartText.{PartText, part_texts};

    ghost Value = { List PartText };

    ghost use Rattle.writeable.specs.ListedParts.{IsCutOut, interval_of};

    ghost view = { λ it. part_texts it.text.now (map interval_of it.rest.now) };

    ghost invariant = { λ it. All (IsCutOut it.text.now) it.rest.now };
}

impl<'s> Iterator for PartTexts<'s> {
    ghost use Rattle.std.specs.Iterator.{YieldsFirstBy, item_count};
    ghost use Rattle.writeable.specs.ListedParts.{given_text};

    type Item = (Part, &'s str);

    ghost next_gives = { YieldsFirstBy given_text (λ it. it) };

    ghost remaining = { item_count (λ it. it) };

    fn next(&mut self) -> Option<(Part, &'s str)> {
        let ((start, end, part), rest) = self.rest.split_first()?;
        self.rest = rest;
        Some((*part, &self.text[*start..*end]))
    }
}

impl<'s> FusedIterator for PartTexts<'s> {}
