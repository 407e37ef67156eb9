//! Which parts a `PartsSink` lists, and where.
ghost use Rattle.std.specs.Prelude.{◌≡◌, false};

use crate::fakes::{INNER, OUTER, Pair};
use std::alloc::{AllocError, Global};
use std::process::Abort;
use std::test::Fail;
use writeable::{Affixed, Error, PartsSink, Sink, Writeable};

// Writes a script: `(` opens A, `[` opens B, `)` and `]` close, all else is text.
fn write_script<S: Sink>(sink: &mut S, script: &str) -> Result<(), Error>
    requires { S.refused sink.old ≡ false }
{
    for character in script.chars() {
        let taken = match character {
            '(' => sink.open_part(OUTER),
            '[' => sink.open_part(INNER),
            ')' | ']' => sink.close_part(),
            _ => sink.write_char(character),
        };
        taken?;
    }
    Ok(())
}

fn written(alloc: Global, script: &str) -> Result<PartsSink, Error> {
    let mut sink = PartsSink::new(alloc);
    write_script(&mut sink, script)?;
    Ok(sink)
}

// The parts as `start-end value`, each after a blank.
fn listing(alloc: Global, sink: &PartsSink) -> Result<String, AllocError> {
    let mut text = String::new(alloc);
    for (start, end, part) in sink.parts() {
        write!(text, " {start}-{end}{}", part.value)?;
    }
    Ok(text)
}

// The parts with their texts as `value=text`, each after a blank.
fn texts(alloc: Global, sink: &PartsSink) -> Result<String, AllocError> {
    let mut listed = String::new(alloc);
    for (part, text) in sink.part_texts() {
        write!(listed, " {}={text}", part.value)?;
    }
    Ok(listed)
}

// Scripts, with the text that each writes, its parts, and these with their texts.
const SCRIPTS: [(&str, &str, &str, &str); 11] = [
    ("(a[,]b)", "a,b", " 0-3A 1-2B", " A=a,b B=,"),
    ("a[,]", "a,", " 1-2B", " B=,"),
    // a part without bytes
    ("()a", "a", "", ""),
    ("(a[])", "a", " 0-1A", " A=a"),
    // a part that is still open, then closed, and a closed one inside an open one
    ("(a", "a", "", ""),
    ("(a)", "a", " 0-1A", " A=a"),
    ("(a[b]", "ab", " 1-2B", " B=b"),
    // only a close: nothing happens
    (")(a))b", "ab", " 0-1A", " A=a"),
    // two parts at one start, in order of opening
    ("([a])", "a", " 0-1A 0-1B", " A=a B=a"),
    (
        "(a[b])(c)[d]",
        "abcd",
        " 0-2A 1-2B 2-3A 3-4B",
        " A=ab B=b A=c B=d",
    ),
    // bytes, not characters
    ("١[٬]", "١٬", " 2-4B", " B=٬"),
];

// Compares two texts, the first of which is dropped.
fn expect_same(rt: &impl Abort, found: String, want: &str, script: &str) {
    assert_eq!(rt; found.as_str(), want, "{script}");
}

// Compares what a sink holds and lists.
fn expect_held(
    rt: &impl Abort,
    alloc: Global,
    sink: &PartsSink,
    row: &(&str, &str, &str, &str),
) -> Result<(), Fail> {
    let (script, text, parts, part_texts) = row;
    assert_eq!(rt; sink.text(), *text, "{script}");
    assert!(rt; !sink.has_refused());
    expect_same(rt, listing(alloc, sink)?, parts, script);
    expect_same(rt, texts(alloc, sink)?, part_texts, script);
    Ok(())
}

// Writes a script to a sink, and compares what it then holds and lists.
fn expect_listed(
    rt: &impl Abort,
    alloc: Global,
    row: &(&str, &str, &str, &str),
) -> Result<(), Fail> {
    let sink = written(alloc, row.0)?;
    let compared = expect_held(rt, alloc, &sink, row);
    drop(sink);
    compared
}

#[test]
fn lists_closed_parts_with_bytes(rt: HostRuntime) -> Result<(), Fail> {
    for row in &SCRIPTS {
        expect_listed(&rt, rt.alloc(), row)?;
    }
    Ok(())
}

fn parts_of<T: Writeable>(alloc: Global, value: &T) -> Result<PartsSink, Error> {
    let mut sink = PartsSink::new(alloc);
    value.write_to(&mut sink)?;
    Ok(sink)
}

// `x` as a part, and only the text of a value after it.
fn text_after<T: Writeable>(alloc: Global, value: &T) -> Result<PartsSink, Error> {
    let mut sink = PartsSink::new(alloc);
    sink.open_part(OUTER)?;
    sink.write_str("x")?;
    sink.close_part()?;
    value.write_text(&mut sink)?;
    Ok(sink)
}

#[test]
fn lists_the_parts_of_a_value(rt: HostRuntime) -> Result<(), Fail> {
    let sink = parts_of(rt.alloc(), &Pair)?;
    assert_eq!(rt; sink.text(), "a,b");
    assert_eq!(rt; sink.parts(), [(0, 3, OUTER), (1, 2, INNER)].as_slice());
    // three bytes before the parts
    let net = Affixed {
        before: "€",
        value: Pair,
        behind: " net",
    };
    let sink = parts_of(rt.alloc(), &net)?;
    assert_eq!(rt; sink.text(), "€a,b net");
    assert_eq!(rt; sink.parts(), [(3, 6, OUTER), (4, 5, INNER)].as_slice());
    assert_eq!(rt; texts(rt.alloc(), &sink)?.as_str(), " A=a,b B=,");
    // only the text: no parts
    let alone = text_after(rt.alloc(), &Pair)?;
    assert_eq!(rt; alone.text(), "xa,b");
    assert_eq!(rt; alone.parts(), [(0, 1, OUTER)].as_slice());
    assert_eq!(rt; text_after(rt.alloc(), &"a,b")?.text(), "xa,b");
    Ok(())
}
