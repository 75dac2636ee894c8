use pyr_decimal::{number, put_decimal, put_number};
use std::test::Fail;

// Texts, and the number that each writes, if it writes one.
const READ: &[(&[u8], Option<u64>)] = &[
    (b"0", Some(0)),
    (b"40", Some(40)),
    (b"18446744073709551615", Some(u64::MAX)),
    (b"18446744073709551616", None),
    (b"040", None),
    (b"00", None),
    (b"", None),
    (b"4 ", None),
    (b"-4", None),
    (b"4a", None),
];

#[test]
fn reads_numbers(rt: HostRuntime) {
    for (text, expected) in READ {
        assert_eq!(rt; number(text), *expected, "of {text:?}");
    }
}

#[test]
fn writes_numbers(rt: HostRuntime) -> Result<(), Fail> {
    let mut text = Vec::new(rt.alloc());
    put_decimal(&mut text, 0)?;
    put_number(&mut text, 40)?;
    put_number(&mut text, u64::MAX)?;
    assert_eq!(rt; text.as_slice(), b"0 40 18446744073709551615".as_slice());
    Ok(())
}
