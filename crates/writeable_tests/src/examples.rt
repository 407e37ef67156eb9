//! The example of each public item that is no sink.
use crate::fakes::{Failing, INNER, OUTER, Pair};
use std::alloc::Global;
use std::cmp::Ordering;
use std::fmt::{self, Write};
use std::process::Abort;
use std::test::Fail;
use writeable::{
    Affixed, CompareSink, Error, LengthHint, Part, Sink, Writeable, display, strict_cmp,
};
use writeable_bytes::TooSmall;

#[derive(Drop)]
struct Shown(Pair);

impl fmt::Display for Shown {
    fn fmt<W: fmt::Write>(&self, f: &mut fmt::Formatter<W>) -> fmt::Result {
        display(&self.0, f)
    }
}

// A value with the euro sign before it, of three bytes, and ` net` after it.
fn net<T>(value: T) -> Affixed<'static, T> {
    Affixed {
        before: "€",
        value,
        behind: " net",
    }
}

// Compares the bounds of a hint.
fn expect_hint(rt: &impl Abort, hint: LengthHint, low: usize, high: Option<usize>) {
    assert_eq!(rt; hint.low, low);
    assert_eq!(rt; hint.high, high);
}

#[test]
fn parts_errors_and_hints(rt: HostRuntime) {
    let part = Part {
        category: "decimal",
        value: "integer",
    };
    assert_eq!(rt; part.category, "decimal");
    assert_eq!(rt; part.value, "integer");
    assert!(rt; OUTER != INNER);
    assert_eq!(rt; Error.number(), 1);
    assert_eq!(rt; TooSmall { needed: 3 }.number(), 1);
    expect_hint(&rt, LengthHint::exact(3), 3, Some(3));
    expect_hint(&rt, LengthHint::at_least(2), 2, None);
    expect_hint(&rt, "a,b".writeable_length_hint(), 3, Some(3));
    expect_hint(&rt, Pair.writeable_length_hint(), 0, None);
    expect_hint(&rt, net("5").writeable_length_hint(), 8, Some(8));
    expect_hint(&rt, net(Pair).writeable_length_hint(), 7, None);
}

// Against `a,`: after `a,`, and after `a,b`.
fn verdicts() -> Result<(Ordering, Ordering), Error> {
    let mut sink = CompareSink::new(b"a,");
    sink.write_str("a,")?;
    let all = sink.verdict();
    sink.write_char('b')?;
    Ok((all, sink.verdict()))
}

// Texts, with the order of `a,b` against each.
const ORDERS: [(&str, Ordering); 6] = [
    ("a,b", Ordering::Equal),
    // the shorter one is less
    ("a,", Ordering::Greater),
    ("a,b-x", Ordering::Less),
    ("", Ordering::Greater),
    // the first byte that differs decides
    ("a-b", Ordering::Less),
    ("a+", Ordering::Greater),
];

#[test]
fn orders_of_texts(rt: HostRuntime) {
    for (other, want) in &ORDERS {
        assert_eq!(rt; strict_cmp(&Pair, other.as_bytes()), *want, "{other}");
    }
    // a beginning, all of it, more than it
    assert_eq!(rt; CompareSink::new(b"a,").verdict(), Ordering::Less);
    assert_eq!(rt; verdicts(), Ok((Ordering::Equal, Ordering::Greater)));
}

// Compares the text of a value.
fn expect_text<T: Writeable>(
    rt: &impl Abort,
    alloc: Global,
    value: &T,
    want: &str,
) -> Result<(), Fail> {
    let text = value.write_to_string(alloc)?;
    assert_eq!(rt; text.as_str(), want);
    Ok(())
}

#[test]
fn texts_of_values(rt: HostRuntime) -> Result<(), Fail> {
    expect_text(&rt, rt.alloc(), &Pair, "a,b")?;
    expect_text(&rt, rt.alloc(), &"٬", "٬")?;
    expect_text(&rt, rt.alloc(), &"", "")?;
    expect_text(&rt, rt.alloc(), &net("5"), "€5 net")?;
    assert_eq!(rt;
        format!(in rt.alloc(); "{}", net(net(Pair)))?.as_str(),
        "€€a,b net net"
    );
    let shown = Shown(Pair);
    assert_eq!(rt; format!(in rt.alloc(); "<{shown}>")?.as_str(), "<a,b>");
    assert_eq!(rt; write!(Failing, "{shown}"), Err(fmt::Error));
    assert_eq!(rt; Error.to_string(rt.alloc())?.as_str(), "the sink refused");
    Ok(())
}
