//! Facts of a formatter: `legumeyet_formatter_tell`.

ghost use Rattle.std.specs.Prelude.{◌≡◌};
ghost use Rattle.legumeyet_c_values.specs.Facts.{IsNoFact, fact_text};
ghost use Rattle.legumeyet_c_values.specs.Putting.{Answers, IsPut};
ghost use Rattle.legumeyet_c.specs.Kinds.{format_in};
ghost use Rattle.legumeyet_c.specs.Opened.{opened};
ghost use Rattle.legumeyet_c.specs.Telling.{IsFactFault, SaysFact, told_by};
ghost use Rattle.legumeyet_c.specs.Views.{format_content, format_open};

use crate::content::{Content, formatter_in};
use crate::handles::FormatterHandle;
use crate::lent_formatter::LentFormatter;
use legumeyet_c_values::{CallError, Fact, Facts, fact_by, put_fact, status_of};

// Writes a fact of a formatter.
fn put_fact_of(
    lent: &LentFormatter<'_>,
    fact: Fact,
    out: &mut [u8],
    length: &mut usize,
) -> Result<(), CallError>
    ensures { IsPut (λ text. fact_text (told_by lent.now) fact ≡ Some text) (IsNoFact (told_by lent.now) fact) out.old
        out.new length.old length.new result }
{
    let formatter = lent.get();
    let facts = Facts {
        symbols: formatter.symbols(),
        digits: formatter.digits(),
        fractions: lent.fractions(),
        rules: lent.rules(),
    };
    put_fact(&facts, fact, out, length)
}

// Writes a fact of what is open, by its number.
pub(crate) fn write_fact(
    content: Option<&Content>,
    fact: u32,
    out: &mut [u8],
    length: &mut usize,
) -> Result<(), CallError>
    ensures { IsPut (SaysFact (format_in (opened content.entry)) fact)
        (IsFactFault (format_in (opened content.entry)) fact) out.old out.new length.old length.new result }
{
    let Some(held) = formatter_in(content) else {
        return Err(CallError::Closed);
    };
    match fact_by(fact) {
        Some(fact) => put_fact_of(&held.lent(), fact, out, length),
        None => Err(CallError::UnknownOption),
    }
}

/// Tells a fact of a formatter as text, by its number: 1 of German `,`, and 11 of one with plurals in English `one other`.
/// An amount has the symbols of its currency, where it has its own.
///
/// Returns 0; 2, the handle is closed; 4, no fact has the number, or it is one of a currency or of plurals that the
/// formatter does not have; 3, the text needs more room.
#[unsafe(no_mangle)]
pub extern "C" fn legumeyet_formatter_tell(
    formatter: &mut FormatterHandle,
    fact: u32,
    out: &mut [u8],
    length: &mut usize,
) -> i32
    ensures same { format_content formatter.new ≡ format_content formatter.old }
    ensures told { Answers
        (IsPut (SaysFact (format_open formatter.old) fact) (IsFactFault (format_open formatter.old) fact) out.old out.new
        length.old length.new) result }
{
    status_of(write_fact(formatter.handle.content(), fact, out, length))
}
