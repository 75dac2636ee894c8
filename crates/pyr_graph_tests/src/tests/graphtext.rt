use crate::tests::programs::program_of;
use pyr_graphtext::{ProgramFault, print_program, sequential};
use pyr_num::{Name, Outputs};
use std::alloc::{AllocError, Global};
use std::process::Abort;
use std::test::Fail;

// Four tasks with comments and blanks: `d` reads what `b` and `c` make of the word of `a`.
const DIAMOND: &str = "# a diamond
data x 1 5
 data\ty 1 1\r
data z 1 1 # carried from c to d

data w 1 0
task d 1
reads y  z
writes w
put w[ 0 ]=( y[0]+z [0] )
end
task c 4
reads x
writes z
put z[0] = (x[0] * 2)
end
task b 3
reads x
writes y
put y[0] = (x[0] + 1)
end
task a 2
writes x
put x[0] = (3 + frame)
end
print w";

const CANONICAL: &str = "data x 1 5
data y 1 1
data z 1 1
data w 1 0
task d 1
reads y z
writes w
put w[0] = (y[0] + z[0])
end
task c 4
reads x
writes z
put z[0] = (x[0] * 2)
end
task b 3
reads x
writes y
put y[0] = (x[0] + 1)
end
task a 2
writes x
put x[0] = (3 + frame)
end
print w
";

fn printed(rt: &impl Abort, alloc: Global, text: &str) -> Result<Vec<u8>, ProgramFault> {
    let program = program_of(rt, alloc, text)?;
    let text = print_program(alloc, &program);
    drop(program);
    Ok(text?)
}

#[test]
fn prints_the_canonical_text(rt: HostRuntime) -> Result<(), Fail> {
    let text = printed(&rt, rt.alloc(), DIAMOND)?;
    assert_eq!(rt; text.as_slice(), CANONICAL.as_bytes());
    Ok(())
}

// The values of the printed data in a frame.
fn values(rt: &impl Abort, alloc: Global, text: &str, frame: u64) -> Result<Outputs, ProgramFault> {
    let program = program_of(rt, alloc, text)?;
    let outputs = sequential(alloc, &program, frame);
    drop(program);
    Ok(outputs?)
}

// Whether one word was printed, and this one.
fn is_word(outputs: &Outputs, word: u64) -> bool {
    match outputs.lists.as_slice() {
        [words] => words.as_slice() == [word].as_slice(),
        _ => false,
    }
}

#[test]
fn runs_the_tasks_in_a_topological_order(rt: HostRuntime) -> Result<(), Fail> {
    for (frame, word) in &[(0, 10), (2, 16)] {
        let outputs = values(&rt, rt.alloc(), DIAMOND, *frame)?;
        assert!(rt; is_word(&outputs, *word));
    }
    Ok(())
}

fn text_of(name: &Name) -> &str {
    str::from_utf8(name.bytes()).unwrap_or("?")
}

fn cycle_told(alloc: Global, names: &[Name]) -> Result<String, AllocError> {
    let mut text = String::from_str(alloc, "cycle")?;
    for name in names {
        text.push_str(" ")?;
        text.push_str(text_of(name))?;
    }
    Ok(text)
}

// Why a text stands for no program.
fn refusal(rt: &impl Abort, alloc: Global, text: &str) -> Result<String, AllocError> {
    let fault = program_of(rt, alloc, text).err();
    match &fault {
        None => format!(in alloc; "a program"),
        Some(ProgramFault::BadText { line }) => format!(in alloc; "{line}: text"),
        Some(ProgramFault::Limit { line, which }) => format!(in alloc; "{line}: {which:?}"),
        Some(ProgramFault::Names { line, kind, name }) => {
            let name = text_of(name);
            format!(in alloc; "{line}: {kind:?} {name}")
        }
        Some(ProgramFault::NoWriter { name }) => {
            let name = text_of(name);
            format!(in alloc; "no writer {name}")
        }
        Some(ProgramFault::Cycle { names }) => cycle_told(alloc, names.as_slice()),
        Some(other) => format!(in alloc; "{other}"),
    }
}

// Texts that stand for no program, and what is told of them.
const FAULTY: &[(&str, &str)] = &[
    ("", "there is no task"),
    (" \t\r\n# no task", "there is no task"),
    ("task a 1", "2: text"),
    ("task a 1\n", "2: text"),
    ("task a 0", "1: Cost"),
    ("task a 07", "1: text"),
    ("end", "1: text"),
    ("data x 1 0\ndata x 1 0", "2: Duplicate x"),
    ("print q", "1: Unknown q"),
    // the first faulty line is told
    ("data x 1 0\nprint q\ndata y 0 0\nend", "2: Unknown q"),
    // the limits of a line come before its names, and the length before the weight
    ("data x 1 0\ndata x 65 1000001", "2: Length"),
    ("data x 1 0\nprint x\nprint x", "3: Duplicate x"),
    ("data x 1 0\ntask a 1\nwrites y x x", "3: Unknown y"),
    ("data x 1 0\ntask a 1\nreads x y x", "3: Duplicate x"),
    ("data x 1 0\ntask a 1\nwrites x\nreads x", "4: text"),
    (
        "data x 1 0\ntask a 1\nwrites x\nend\ntask b 1\nwrites x\nend",
        "6: SecondWriter x",
    ),
    ("data x 1 0\ntask a 1\nput x[0] = 1", "3: Unknown x"),
    (
        "data x 1 0\ndata y 1 0\ntask a 1\nreads x y\nend",
        "no writer x",
    ),
    ("data x 1 0\ntask a 1\nreads x\nwrites x\nend", "cycle a"),
    (
        "data x 1 0\ndata y 1 0\ndata z 1 0\ntask e 1\nend\ntask a 1\nreads z\nwrites x\nend\n\
task b 1\nreads x\nwrites y\nend\ntask c 1\nreads y\nwrites z\nend",
        "cycle a c b",
    ),
    (
        "data x 1 0\ntask a 1\nwrites x\nput x[((((((((((((((((((((((((((((((",
        "4: text",
    ),
    (
        "data x 1 0\ntask a 1\nwrites x\nput x[(((((((((((((((((((((((((((((((",
        "4: Depth",
    ),
];

#[test]
fn tells_the_first_fault(rt: HostRuntime) -> Result<(), Fail> {
    for (text, expected) in FAULTY {
        let found = refusal(&rt, rt.alloc(), text)?;
        assert_eq!(rt; found.as_str(), *expected, "at {text:?}");
    }
    Ok(())
}
