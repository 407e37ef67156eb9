//! What a `TextSink` holds, what a `CountSink` counts, and what a refusal leaves.
ghost use Rattle.std.specs.Prelude.{◌≡◌, false};

use crate::fakes::{OUTER, Pair, Short};
use std::alloc::{AllocError, Global};
use std::process::Abort;
use std::test::Fail;
use writeable::{CountSink, Error, Sink, TextSink, Writeable};

// Writes `a,b` as a part, and a character after it.
fn write_call_by_call<S: Sink>(sink: &mut S) -> Result<(), Error>
    requires { S.refused sink.old ≡ false }
{
    sink.open_part(OUTER)?;
    sink.write_str("a,")?;
    sink.write_char('b')?;
    sink.close_part()?;
    sink.write_char('٬')
}

fn text_call_by_call(alloc: Global) -> Result<TextSink, Error> {
    let mut sink = TextSink::new(alloc);
    write_call_by_call(&mut sink)?;
    Ok(sink)
}

fn pair_after(alloc: Global, front: &str) -> Result<TextSink, Error> {
    let mut sink = TextSink::new(alloc);
    sink.write_str(front)?;
    Pair.write_to(&mut sink)?;
    Ok(sink)
}

// The text with that of the pair after it, moved through a sink.
fn moved_after(text: String) -> Result<String, Error> {
    let mut sink = TextSink::from_string(text);
    Pair.write_text(&mut sink)?;
    Ok(sink.into_string())
}

// Texts pushed into one's own sink.
fn pushed(alloc: Global) -> Result<TextSink, AllocError> {
    let mut sink = TextSink::new(alloc);
    sink.push_str("a,")?;
    sink.push_str("")?;
    sink.push_str("b")?;
    Ok(sink)
}

#[test]
fn texts_of_a_sink(rt: HostRuntime) -> Result<(), Fail> {
    assert_eq!(rt; TextSink::new(rt.alloc()).text(), "");
    let sink = text_call_by_call(rt.alloc())?;
    assert_eq!(rt; sink.text(), "a,b٬");
    assert!(rt; !sink.has_refused());
    let sink = pushed(rt.alloc())?;
    assert_eq!(rt; sink.text(), "a,b");
    assert!(rt; !sink.has_refused());
    assert_eq!(rt; pair_after(rt.alloc(), "x")?.text(), "xa,b");
    let text = String::from_str(rt.alloc(), "x")?;
    assert_eq!(rt; moved_after(text)?.as_str(), "xa,b");
    Ok(())
}

fn counted_call_by_call() -> Result<u64, Error> {
    let mut sink = CountSink::new();
    sink.write_str("ab")?;
    sink.write_char('c')?;
    sink.write_char('٬')?;
    Ok(sink.count())
}

// The count, and whether the sink has refused.
fn counted<T: Writeable>(value: &T) -> Result<(u64, bool), Error> {
    let mut sink = CountSink::new();
    sink.open_part(OUTER)?;
    value.write_to(&mut sink)?;
    sink.close_part()?;
    Ok((sink.count(), sink.has_refused()))
}

// Texts, with the count of their bytes, which are not their characters.
const COUNTS: [(&str, u64); 3] = [("", 0), ("a,b", 3), ("١٬٢", 6)];

#[test]
fn counts_of_bytes(rt: HostRuntime) {
    assert_eq!(rt; CountSink::new().count(), 0);
    for (text, want) in &COUNTS {
        assert_eq!(rt; counted(text), Ok((*want, false)), "{text}");
    }
    assert_eq!(rt; counted(&Pair), Ok((3, false)));
    assert_eq!(rt; counted_call_by_call(), Ok(5));
}

// How many calls a sink takes, and whether it so takes `Pair`, which makes seven.
const CALLS_OF_A_PAIR: [(usize, bool); 6] = [
    (0, false),
    (1, false),
    (3, false),
    (6, false),
    (7, true),
    (8, true),
];

// The same of its text only, which makes three.
const CALLS_OF_ITS_TEXT: [(usize, bool); 3] = [(0, false), (2, false), (3, true)];

// A sink that takes so many calls.
fn short(calls: usize) -> Short
    ensures { result.refused ≡ false }
{
    Short {
        calls,
        refused: false,
    }
}

// Compares what a call returned, and what its sink says then.
fn expect_taken(rt: &impl Abort, returned: Result<(), Error>, sink: &Short, row: (usize, bool)) {
    let (calls, is_taken) = row;
    assert_eq!(rt; returned.is_ok(), is_taken, "{calls} calls");
    assert_eq!(rt; sink.has_refused(), !is_taken, "{calls} calls");
}

#[test]
fn a_value_is_refused_where_the_sink_refuses(rt: HostRuntime) {
    for row in &CALLS_OF_A_PAIR {
        let mut sink = short(row.0);
        let returned = Pair.write_to(&mut sink);
        expect_taken(&rt, returned, &sink, *row);
    }
    for row in &CALLS_OF_ITS_TEXT {
        let mut sink = short(row.0);
        let returned = Pair.write_text(&mut sink);
        expect_taken(&rt, returned, &sink, *row);
    }
}
