//! What is written for what is refused.

ghost use Rattle.std.specs.Prelude.{◌≡◌};
ghost use Rattle.legumeyet_options.specs.Invalids.{invalid_named};

/// What is written in place of a number or a text that is refused.
#[derive(Clone, Copy, Debug, PartialEq, Eq)]
pub enum Invalid {
    /// An empty line.
    Empty,
    /// A line with the text as it is.
    Keep,
    /// Nothing.
    Skip,
    /// Nothing, and nothing after it.
    Abort,
}

impl Invalid {
    /// The one that a word of `--invalid` names: `Empty` of `empty`; `None` where it names none, as `ignore`.
    ///
    /// It does not allocate.
    pub fn named(word: &str) -> Option<Self>
        ensures value { result ≡ invalid_named word.now }
    {
        match word {
            "empty" => Some(Invalid::Empty),
            "keep" => Some(Invalid::Keep),
            "skip" => Some(Invalid::Skip),
            "abort" => Some(Invalid::Abort),
            _ => None,
        }
    }
}
