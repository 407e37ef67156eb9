//! The JSON form of a subtag: a text.

ghost use Rattle.std.specs.Prelude.{◌≡◌, true, false, IfOk, MatchResult};
ghost use Rattle.serde_json.specs.Data.{string};
ghost use Rattle.serde_json.specs.View.{view};
ghost use Rattle.icu_locale_core_subtags.specs.JsonText.{json_text};

use crate::rule::SubtagRule;
use crate::subtag_of::SubtagOf;
use icu_locale_core_grammar::ParseError;
use serde_json::Value;
use std::alloc::{AllocError, Global};

/// The text of a JSON value, borrowed: of `"en"` it is `en`, and of a value that is no text the empty text. It does not
/// allocate.
pub fn text_of_json(value: &Value) -> &str
    ensures { result.now ≡ json_text (view value.now) }
{
    match value.as_str() {
        Some(text) => text,
        None => "",
    }
}

impl<R: SubtagRule<N>, const N: usize> SubtagOf<R, N> {
    /// The text in normal case as a JSON value: `en` gives `"en"`. It allocates. `AllocError`: out of memory.
    pub fn to_json(&self, alloc: Global) -> Result<Value, AllocError>
        ensures { IfOk result (λ value. view value ≡ string self.now) }
    {
        let text = String::from_str(alloc, self.as_str())?;
        Ok(Value::String(text))
    }

    /// The subtag of the text in a JSON value, as `try_from_str`: `"EN"` gives the language `en`.
    ///
    /// A value that is no text has the error of the empty text. It does not allocate.
    pub fn from_json(value: &Value) -> Result<Self, ParseError>
        ensures { let text = json_text (view value.now) in
            MatchResult result (λ subtag. (R.accepts text ≡ true) × (subtag ≡ R.normal text))
            (λ e. (R.accepts text ≡ false) × (e ≡ R.fault)) }
    {
        Self::try_from_str(text_of_json(value))
    }
}
