use pyr_num::{Bin, Cells, DatumId, Name, Outputs, Parcel, ProcId, TaskId, Words, apply};
use sqlite_items::Items;
use std::alloc::{AllocError, Global};
use std::test::Fail;

// Operators, two words, and the word that they give.
const OPERATIONS: &[(Bin, u64, u64, u64)] = &[
    (Bin::Add, u64::MAX, 1, 0),
    (Bin::Sub, 3, 5, u64::MAX - 1),
    (Bin::Mul, 1 << 63, 2, 0),
    (Bin::Div, 7, 2, 3),
    (Bin::Div, 5, 0, 0),
    (Bin::Rem, 7, 4, 3),
    (Bin::Rem, 5, 0, 5),
    (Bin::And, 6, 3, 2),
    (Bin::Or, 6, 3, 7),
    (Bin::Xor, 6, 3, 5),
    (Bin::Shl, 1, 64, 1),
    (Bin::Shl, 3, 63, 1 << 63),
    (Bin::Shr, 4, 65, 2),
    (Bin::Min, u64::MAX, 0, 0),
    (Bin::Max, u64::MAX, 0, u64::MAX),
    (Bin::Eq, 4, 4, 1),
    (Bin::Eq, 4, 5, 0),
    (Bin::Lt, 4, 5, 1),
    (Bin::Lt, 5, 5, 0),
];

fn gives(op: Bin, a: u64, b: u64, value: u64) -> bool {
    apply(op, a, b) == value
}

#[test]
fn applies_each_operator(rt: HostRuntime) {
    for (op, a, b, value) in OPERATIONS {
        assert!(rt; gives(*op, *a, *b, *value), "{op:?}");
    }
}

// Texts, and whether each is a name.
const TEXTS: &[(&[u8], bool)] = &[
    (b"x", true),
    (b"_a9", true),
    (b"Z", true),
    (b"abcdefghabcdefghabcdefghabcdefgh", true),
    (b"datum", true),
    (b"maxi", true),
    (b"", false),
    (b"9a", false),
    (b"a-b", false),
    (b"a b", false),
    (b"\xc3\xa4", false),
    (b"abcdefghabcdefghabcdefghabcdefghi", false),
    (b"data", false),
    (b"max", false),
];

#[test]
fn takes_names_alone(rt: HostRuntime) {
    for (text, is_name) in TEXTS {
        assert_eq!(rt; Name::new(text).is_some(), *is_name, "at {text:?}");
    }
}

#[test]
fn compares_names_and_numbers(rt: HostRuntime) {
    let (a, b) = (Name::new(b"a"), Name::new(b"b"));
    assert!(rt; a == Name::new(b"a") && a != b);
    assert!(rt; TaskId(0) != TaskId(1) && ProcId(2) != ProcId(1));
}

#[test]
fn cells_hold_what_was_put(rt: HostRuntime) -> Result<(), Fail> {
    let mut cells = Cells::new(rt.alloc(), 2, 5)?;
    cells.add_input(&[11, 22]);
    cells.add_output(3);
    cells.put(0, 4, 7);
    let is_put = cells.get(0, 5) == 22
        && cells.get(1, 1) == 7
        && cells.output(0) == [0, 7, 0].as_slice();
    cells.clear();
    cells.add_output(5);
    assert!(rt; is_put && cells.output(0) == [0, 0, 0, 0, 0].as_slice());
    Ok(())
}

// What a generic function asks of a value that moves to another thread.
fn moved<T: Send>(value: T) -> T {
    value
}

// Whether a parcel is whole behind its move.
fn parcel_moves(alloc: Global) -> Result<bool, AllocError> {
    let words = Words::from_slice(alloc, &[10])?;
    let tag = DatumId(3);
    let parcel = moved(Parcel { tag, words });
    Ok(parcel.tag == tag && parcel.words.as_slice() == [10].as_slice())
}

// Whether outputs are.
fn outputs_move(alloc: Global) -> Result<bool, AllocError> {
    let words = Words::from_slice(alloc, &[10])?;
    let lists = Items::from_vec(vec![in alloc; words]?);
    Ok(moved(Outputs { lists }).lists.len() == 1)
}

#[test]
fn parcels_and_outputs_move_to_another_thread(rt: HostRuntime) -> Result<(), Fail> {
    assert!(rt; parcel_moves(rt.alloc())? && outputs_move(rt.alloc())?);
    Ok(())
}
