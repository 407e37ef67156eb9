//! The causes for which a line is refused, each with its word.

ghost use Rattle.std.specs.Prelude.{◌≡◌};
ghost use Rattle.locale_numbers_requests.specs.Refusal.{word_of};

/// Why a line is answered by `err` and a word, in the order in which the causes are sought.
#[derive(Clone, Copy)]
pub enum Refusal {
    /// The line is not UTF-8, or has not six known fields.
    Shape,
    /// The tag is no locale's.
    Tag,
    /// The text is no number's.
    Number,
    /// The number has digits beyond the greatest or the least magnitude.
    Limit,
    /// The book has no table for the tag.
    Table,
    /// The number shown, or its exponent, passes the greatest magnitude.
    Range,
    /// The table writes a number of this size under another exponent.
    Exponent,
    /// The tables' symbols can't be told apart in a text.
    Unreadable,
    /// No number is written by this text.
    NotWritten,
}

impl Refusal {
    /// The word after `err`: `table` for `Table`, `not-written` for `NotWritten`.
    pub fn word(&self) -> &'static str
        ensures value { result.now ≡ word_of self.now }
    {
        match self {
            Refusal::Shape => "shape",
            Refusal::Tag => "tag",
            Refusal::Number => "number",
            Refusal::Limit => "limit",
            Refusal::Table => "table",
            Refusal::Range => "range",
            Refusal::Exponent => "exponent",
            Refusal::Unreadable => "unreadable",
            Refusal::NotWritten => "not-written",
        }
    }
}
