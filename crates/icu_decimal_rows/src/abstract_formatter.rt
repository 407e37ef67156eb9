//! Answers of the calls of abstract formatters, by a plain one and by a compact one.

use crate::parts::{put_by, put_range};
use crate::refusals::parsed;
use crate::tables::elements_of;
use crate::with_unit::WithUnit;
use fixed_decimal::{Decimal, Sign, UnsignedDecimal};
use icu_decimal::AbstractFormatter;
use icu_decimal::pattern::Pattern;
use icu_decimal::plurals::{PluralElements, PluralRules};
use rows::{Stop, put_text, put_written};
use std::alloc::Global;
use writeable::TextSink;

// What was written, and a text after it.
fn with_after(alloc: Global, is_written: bool, text: &str, behind: &str) -> Result<String, Stop> {
    if !is_written {
        return Err(Stop::Memory);
    }
    Ok(format!(in alloc; "{text}{behind}")?)
}

// The text of a number without its sign, and a text after it.
fn with_unit<F: AbstractFormatter>(
    alloc: Global,
    formatter: &F,
    number: &UnsignedDecimal,
    unit: &str,
) -> Result<String, Stop>
    requires { F.can_write formatter.now number.now }
{
    let mut sink = TextSink::new(alloc);
    let is_written = formatter.write_unsigned(number, &mut sink).is_ok();
    let text = with_after(alloc, is_written, sink.text(), unit);
    drop(sink);
    text
}

// Writes a text between the affixes of a sign.
fn put_with_sign<F: AbstractFormatter>(
    formatter: &F,
    text: &str,
    sign: Sign,
    out: &mut String,
) -> Result<(), Stop> {
    let mut sink = TextSink::new(*out.allocator());
    let is_written = formatter.write_sign(&text, sign, &mut sink).is_ok();
    let put = put_text(out, sink.text());
    drop(sink);
    if is_written { put } else { Err(Stop::Memory) }
}

// Writes the number without its sign, a text after it, and the affixes of the sign around both.
fn put_whole<F: AbstractFormatter>(
    formatter: &F,
    number: &Decimal,
    unit: &str,
    out: &mut String,
) -> Result<(), Stop> {
    if !formatter.can_write(&number.absolute) {
        return put_range(out);
    }
    let text = with_unit(*out.allocator(), formatter, &number.absolute, unit)?;
    let put = put_with_sign(formatter, text.as_str(), number.sign, out);
    drop(text);
    put
}

// Writes the category of what is shown for a number.
fn put_category<F: AbstractFormatter>(
    formatter: &F,
    rules: &PluralRules,
    number: &UnsignedDecimal,
    out: &mut String,
) -> Result<(), Stop> {
    if !formatter.can_write(number) {
        return put_range(out);
    }
    let operands = formatter.plural_operands(number)?;
    put_text(out, rules.category_for(&operands).as_str())
}

// Writes the text that these elements have for what is shown for a number.
fn put_element<F: AbstractFormatter>(
    formatter: &F,
    rules: &PluralRules,
    elements: &PluralElements<Pattern>,
    number: &UnsignedDecimal,
    out: &mut String,
) -> Result<(), Stop> {
    if !formatter.can_write(number) {
        return put_range(out);
    }
    let operands = formatter.plural_operands(number)?;
    let element = elements.get(&operands, rules).interpolate("");
    put_written(out, &element)
}

// The text that the elements of a JSON text have for what is shown for the number of a text.
fn element<F: AbstractFormatter>(
    formatter: &F,
    rules: &PluralRules,
    elements: &str,
    number: &str,
    out: &mut String,
) -> Result<(), Stop> {
    let number = parsed(UnsignedDecimal::try_from_str(*out.allocator(), number))?;
    let elements = elements_of(elements, out)?;
    let put = put_element(formatter, rules, &elements, &number, out);
    drop(elements);
    drop(number);
    put
}

// Writes the number with a unit around it, between the affixes of its sign.
fn put_formatted<F: AbstractFormatter>(
    formatter: &F,
    call: &str,
    unit: [&str; 2],
    number: &Decimal,
    out: &mut String,
) -> Result<(), Stop> {
    if !formatter.can_write(&number.absolute) {
        return put_range(out);
    }
    let value = WithUnit {
        before: unit[0],
        value: formatter.format_unsigned(&number.absolute)?,
        behind: unit[1],
    };
    let signed = formatter.format_sign(number.sign, value);
    let put = put_by(out, call, &signed);
    drop(signed);
    put
}

// The answer of a call that is passed a number.
fn answer_of_number<F: AbstractFormatter>(
    formatter: &F,
    call: &str,
    texts: &[&str],
    number: &Decimal,
    out: &mut String,
) -> Result<(), Stop> {
    match texts {
        [unit] if call == "write_sign" => put_whole(formatter, number, unit, out),
        [before, behind] if call == "format_sign" || call == "format_sign_parts" => {
            put_formatted(formatter, call, [before, behind], number, out)
        }
        _ => Err(Stop::Unknown),
    }
}

// The category of what is shown for the number of a text.
fn plural<F: AbstractFormatter>(
    formatter: &F,
    rules: &PluralRules,
    number: &str,
    out: &mut String,
) -> Result<(), Stop> {
    let number = parsed(UnsignedDecimal::try_from_str(*out.allocator(), number))?;
    let put = put_category(formatter, rules, &number, out);
    drop(number);
    put
}

/// The answer of a call of any formatter, whose number is the last that it is passed.
pub fn answer<F: AbstractFormatter>(
    formatter: &F,
    rules: &PluralRules,
    call: &str,
    passed: &[&str],
    out: &mut String,
) -> Result<(), Stop> {
    let Some((number, texts)) = passed.split_last() else {
        return Err(Stop::Unknown);
    };
    match texts {
        [] if call == "plural_operands" => return plural(formatter, rules, number, out),
        [elements] if call == "elements" => {
            return element(formatter, rules, elements, number, out);
        }
        _ => {}
    }
    let number = parsed(Decimal::try_from_str(*out.allocator(), number))?;
    let put = answer_of_number(formatter, call, texts, &number, out);
    drop(number);
    put
}
