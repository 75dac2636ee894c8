use crate::tests::bodies::{MILLION, body_behind, body_of, x_and_r};
use pyr_body::{Body, LineFault, nodes, print_body};
use pyr_num::{Limits, Name, Quantity};
use std::alloc::{AllocError, Global};
use std::process::Abort;
use std::test::Fail;

// A text, and its canonical text.
const SPACED: &str = "set  s=(1+2)

for i 3 # each word
put r[ i ] = ((x[i]min s) ? frame : ( s<<1 ))
\tdone
set i = 18446744073709551615
";

const CANONICAL: &str = "set s = (1 + 2)
for i 3
put r[i] = ((x[i] min s) ? frame : (s << 1))
done
set i = 18446744073709551615
";

// The text of a body of 18 nodes.
fn print(rt: &impl Abort, alloc: Global, body: &Body) -> Result<Vec<u8>, AllocError> {
    assert!(rt; body.reads() == 1 && body.writes() == 1 && nodes(body) == 18);
    let names = x_and_r(rt, alloc)?;
    print_body(alloc, body, &names)
}

fn printed(rt: &impl Abort, alloc: Global, text: &str) -> Result<Vec<u8>, LineFault> {
    let body = body_of(rt, alloc, text)?;
    let text = print(rt, alloc, &body);
    drop(body);
    Ok(text?)
}

#[test]
fn prints_what_it_read(rt: HostRuntime) -> Result<(), Fail> {
    let text = printed(&rt, rt.alloc(), SPACED)?;
    assert_eq!(rt; text.as_slice(), CANONICAL.as_bytes());
    Ok(())
}

// Why the text is refused, where the bodies before it have so many nodes.
fn refusal(rt: &impl Abort, alloc: Global, nodes_before: u32, text: &str) -> Option<LineFault> {
    body_behind(rt, alloc, nodes_before, text).err()
}

// Texts whose last line is none.
const NO_LINES: &[&str] = &[
    "done",
    "for i 1\ndone\ndone",
    "set s 1",
    "set s = 1 2",
    "set s =",
    "set 1 = 1",
    "set frame = 1",
    "put r = 1",
    "put r[0 = 1",
    "for i",
    "for i i",
    "for i 1 1",
    "s = 1",
    "set s = (1 + 2",
    "set s = (1 + 2 + 3)",
    "set s = (1 ? 2)",
    "for i 1",
    // as many brackets as may be open
    "set s = (((((((((((((((((((((((((((((((",
];

#[test]
fn refuses_what_is_no_line(rt: HostRuntime) {
    for text in NO_LINES {
        let fault = refusal(&rt, rt.alloc(), 0, text);
        assert!(rt; fault == Some(LineFault::Text), "at {text}");
    }
}

// Texts whose last line has an unknown name, and the first one from the left.
const UNKNOWN: &[(&str, &[u8])] = &[
    ("set s = s", b"s"),
    ("set s = 1\nset s = (s + t)", b"t"),
    ("set s = (a + b)", b"a"),
    ("set s = (1 ? 2 : c)", b"c"),
    ("set s = y[z]", b"y"),
    ("set s = x[z]", b"z"),
    ("put x[0] = 1", b"x"),
    ("put r[a] = b", b"a"),
];

#[test]
fn refuses_unknown_names(rt: HostRuntime) {
    for (text, name) in UNKNOWN {
        let name = Name::new(name).expect(&rt, "a name");
        let fault = refusal(&rt, rt.alloc(), 0, text);
        assert!(rt; fault == Some(LineFault::Unknown { name }), "at {text}");
    }
}

// As many locals as may be.
const LOCALS: &str = "\
set s0 = 0\nset s1 = 0\nset s2 = 0\nset s3 = 0\nset s4 = 0\nset s5 = 0\nset s6 = 0\n\
set s7 = 0\nset s8 = 0\nset s9 = 0\nset s10 = 0\nset s11 = 0\nset s12 = 0\nset s13 = 0\n\
set s14 = 0\nset s15 = 0\nset s16 = 0\nset s17 = 0\nset s18 = 0\nset s19 = 0\nset s20 = 0\n\
set s21 = 0\nset s22 = 0\nset s23 = 0\nset s24 = 0\nset s25 = 0\nset s26 = 0\nset s27 = 0\n\
set s28 = 0\nset s29 = 0\nset s30 = 0\nset s31 = 0\nset s32 = 0\nset s33 = 0\nset s34 = 0\n\
set s35 = 0\nset s36 = 0\nset s37 = 0\nset s38 = 0\nset s39 = 0\nset s40 = 0\nset s41 = 0\n\
set s42 = 0\nset s43 = 0\nset s44 = 0\nset s45 = 0\nset s46 = 0\nset s47 = 0\nset s48 = 0\n\
set s49 = 0\nset s50 = 0\nset s51 = 0\nset s52 = 0\nset s53 = 0\nset s54 = 0\nset s55 = 0\n\
set s56 = 0\nset s57 = 0\nset s58 = 0\nset s59 = 0\nset s60 = 0\nset s61 = 0\nset s62 = 0\n\
set s63 = 0\n";

// Texts behind bodies of so many nodes, whose last line may pass a limit: what comes so many times,
// what comes then, and the limit.
const LIMITS: &[(u32, &str, u32, &str, Option<Quantity>)] = &[
    (
        0,
        "for i 1000000\n",
        1,
        "for j 1000001",
        Some(Quantity::Count),
    ),
    (0, "for i 1\n", 16, "for j 1000001", Some(Quantity::Loops)),
    (
        0,
        "set s = 0\n",
        2048,
        "for i 1000001",
        Some(Quantity::Nodes),
    ),
    (
        0,
        "for s 1\n",
        0,
        "set s = ((((((((((((((((((((((((((((((((",
        Some(Quantity::Depth),
    ),
    (0, MILLION, 1, "for k 0\ndone\n", Some(Quantity::Work)),
    (0, LOCALS, 1, "", None),
    (
        0,
        LOCALS,
        1,
        "for s63 1\ndone\nfor s64 1",
        Some(Quantity::Locals),
    ),
    (Limits::ALL_NODES - 2, "", 0, "set s = 1", None),
    (
        Limits::ALL_NODES - 1,
        "",
        0,
        "set s = a",
        Some(Quantity::AllNodes),
    ),
];

// A part so many times, and another behind it.
fn repeated(alloc: Global, first: &str, count: u32, last: &str) -> Result<String, AllocError> {
    let mut text = String::new(alloc);
    for _ in 0..count {
        text.push_str(first)?;
    }
    text.push_str(last)?;
    Ok(text)
}

#[test]
fn refuses_what_passes_a_limit(rt: HostRuntime) -> Result<(), Fail> {
    for (nodes_before, first, count, last, limit) in LIMITS {
        let text = repeated(rt.alloc(), first, *count, last)?;
        let fault = refusal(&rt, rt.alloc(), *nodes_before, text.as_str());
        drop(text);
        let wanted = match limit {
            Some(which) => Some(LineFault::Limit { which: *which }),
            None => None,
        };
        assert!(rt; fault == wanted, "{limit:?}");
    }
    Ok(())
}
