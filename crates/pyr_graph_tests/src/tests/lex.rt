ghost use Rattle.std.specs.Prelude.{◌≤◌, IfOk, vec_len};

use pyr_lex::{LexFault, SpannedToken, Symbol, Token, Word, depth, tokens, write_line};
use pyr_num::Limits;
use std::alloc::{AllocError, Global};
use std::process::Abort;
use std::test::Fail;

const REFUSED: &str = "BadText { line: 7 }";

// Lines, and what is read of them: each token with its span, or the refusal.
const LINES: &[(&[u8], &str)] = &[
    (b"", ""),
    (b" \t\r ", ""),
    (b"#", ""),
    (b"  # data x 1 0", ""),
    (b"# \0\xff\r\t \" # 07 1a", ""),
    (b"x", " name x 0..1"),
    (b"_", " name _ 0..1"),
    (b"_a9Z", " name _a9Z 0..4"),
    (b"x\r", " name x 0..1"),
    (b"\tx\ty", " name x 1..2 name y 3..4"),
    (b"x#y", " name x 0..1"),
    (b"x #", " name x 0..1"),
    (b"x # 07", " name x 0..1"),
    (b"0", " Number(0) 0..1"),
    (b"7", " Number(7) 0..1"),
    (b"10", " Number(10) 0..2"),
    (
        b"18446744073709551615",
        " Number(18446744073709551615) 0..20",
    ),
    (b"18446744073709551616", REFUSED),
    (b"99999999999999999999", REFUSED),
    (b"100000000000000000000", REFUSED),
    (b"00", REFUSED),
    (b"07", REFUSED),
    (b"1a", REFUSED),
    (b"1_", REFUSED),
    (b"1 a", " Number(1) 0..1 name a 2..3"),
    (b"-1", " Symbol(Minus) 0..1 Number(1) 1..2"),
    (b"1.5", REFUSED),
    (
        b"abcdefghabcdefghabcdefghabcdefgh",
        " name abcdefghabcdefghabcdefghabcdefgh 0..32",
    ),
    (b"abcdefghabcdefghabcdefghabcdefghi", REFUSED),
    (b"data task", " Word(Data) 0..4 Word(Task) 5..9"),
    (b"reads writes", " Word(Reads) 0..5 Word(Writes) 6..12"),
    (
        b"set put for",
        " Word(Set) 0..3 Word(Put) 4..7 Word(For) 8..11",
    ),
    (
        b"done end print",
        " Word(Done) 0..4 Word(End) 5..8 Word(Print) 9..14",
    ),
    (
        b"frame min max",
        " Word(Frame) 0..5 Word(Min) 6..9 Word(Max) 10..13",
    ),
    (b"datum", " name datum 0..5"),
    (b"maxi", " name maxi 0..4"),
    (b"Data", " name Data 0..4"),
    (b"durations", " name durations 0..9"),
    (b"()", " Symbol(ParenOpen) 0..1 Symbol(ParenClose) 1..2"),
    (b"[]", " Symbol(BracketOpen) 0..1 Symbol(BracketClose) 1..2"),
    (b"+-", " Symbol(Plus) 0..1 Symbol(Minus) 1..2"),
    (b"*/", " Symbol(Star) 0..1 Symbol(Slash) 1..2"),
    (b"%&", " Symbol(Percent) 0..1 Symbol(Amp) 1..2"),
    (b"|^", " Symbol(Bar) 0..1 Symbol(Caret) 1..2"),
    (b"?:", " Symbol(Question) 0..1 Symbol(Colon) 1..2"),
    (b"<", " Symbol(Less) 0..1"),
    (b"<<", " Symbol(ShiftLeft) 0..2"),
    (b"< <", " Symbol(Less) 0..1 Symbol(Less) 2..3"),
    (b"<<<", " Symbol(ShiftLeft) 0..2 Symbol(Less) 2..3"),
    (b"<<<<", " Symbol(ShiftLeft) 0..2 Symbol(ShiftLeft) 2..4"),
    (b">>", " Symbol(ShiftRight) 0..2"),
    (b">", REFUSED),
    (b"> >", REFUSED),
    (b">>>", REFUSED),
    (b"=", " Symbol(Equal) 0..1"),
    (b"==", " Symbol(EqualEqual) 0..2"),
    (b"= =", " Symbol(Equal) 0..1 Symbol(Equal) 2..3"),
    (b"===", " Symbol(EqualEqual) 0..2 Symbol(Equal) 2..3"),
    (b"<=", " Symbol(Less) 0..1 Symbol(Equal) 1..2"),
    (b"=<", " Symbol(Equal) 0..1 Symbol(Less) 1..2"),
    (
        b"x<<1",
        " name x 0..1 Symbol(ShiftLeft) 1..3 Number(1) 3..4",
    ),
    (
        b"put x[0] = (y[i] == 3)",
        " Word(Put) 0..3 name x 4..5 Symbol(BracketOpen) 5..6 Number(0) 6..7 \
         Symbol(BracketClose) 7..8 Symbol(Equal) 9..10 Symbol(ParenOpen) 11..12 name y 12..13 \
         Symbol(BracketOpen) 13..14 name i 14..15 Symbol(BracketClose) 15..16 \
         Symbol(EqualEqual) 17..19 Number(3) 20..21 Symbol(ParenClose) 21..22",
    ),
    (b"x !", REFUSED),
    (b"a,b", REFUSED),
    (b"\0", REFUSED),
    (b"x \xff", REFUSED),
    (b"\xc3\xa4", REFUSED),
    (b"x\ny", REFUSED),
];

fn kind(alloc: Global, token: Token) -> Result<String, AllocError> {
    match token {
        Token::Name(name) => match str::from_utf8(name.bytes()) {
            Ok(name) => format!(in alloc; " name {name}"),
            Err(_) => format!(in alloc; " no text"),
        },
        _ => format!(in alloc; " {token:?}"),
    }
}

fn push_token(alloc: Global, text: &mut String, spanned: &SpannedToken) -> Result<(), AllocError> {
    let (from, to) = (spanned.from, spanned.to);
    text.push_str(kind(alloc, spanned.token)?.as_str())?;
    text.push_str(format!(in alloc; " {from}..{to}")?.as_str())
}

fn shown(alloc: Global, found: &[SpannedToken]) -> Result<String, AllocError> {
    let mut text = String::new(alloc);
    for spanned in found {
        push_token(alloc, &mut text, spanned)?;
    }
    Ok(text)
}

// The tokens of a line with the number 7.
fn tokens_of(rt: &impl Abort, alloc: Global, line: &[u8]) -> Result<Vec<SpannedToken>, LexFault>
    ensures { IfOk result (λ tokens. vec_len tokens ≤ Limits.INPUT) }
{
    assert!(rt; line.len() <= Limits::INPUT);
    tokens(alloc, line, 7)
}

fn read(rt: &impl Abort, alloc: Global, line: &[u8]) -> Result<String, AllocError> {
    match tokens_of(rt, alloc, line) {
        Ok(found) => shown(alloc, found.as_slice()),
        Err(fault) => format!(in alloc; "{fault:?}"),
    }
}

#[test]
fn reads_each_line(rt: HostRuntime) -> Result<(), Fail> {
    for (line, expected) in LINES {
        let found = read(&rt, rt.alloc(), line)?;
        assert_eq!(rt; found.as_str(), *expected, "at {line:?}");
    }
    Ok(())
}

// How many brackets a line has open at once.
fn depth_of(rt: &impl Abort, alloc: Global, line: &[u8]) -> Result<u32, LexFault> {
    let found = tokens_of(rt, alloc, line)?;
    Ok(depth(found.as_slice()))
}

// Lines, and how many of their brackets are open at once.
const DEPTHS: &[(&[u8], u32)] = &[
    (b"", 0),
    (b"x", 0),
    (b")", 0),
    (b")))(", 1),
    (b"()()", 1),
    (b"([(", 3),
    (b"x[(a + b[0])]", 3),
    (b"(]]](", 1),
];

#[test]
fn counts_open_brackets(rt: HostRuntime) -> Result<(), Fail> {
    for (line, expected) in DEPTHS {
        assert_eq!(rt; depth_of(&rt, rt.alloc(), line)?, *expected, "at {line:?}");
    }
    Ok(())
}

fn plain(alloc: Global, found: &[SpannedToken]) -> Result<Vec<Token>, AllocError> {
    let mut plain = Vec::new(alloc);
    for spanned in found {
        plain.push(spanned.token)?;
    }
    Ok(plain)
}

// The canonical text of a line of these tokens.
fn line_of(alloc: Global, found: &[SpannedToken]) -> Result<Vec<u8>, AllocError> {
    let plain = plain(alloc, found)?;
    let mut out = Vec::new(alloc);
    write_line(&mut out, plain.as_slice())?;
    Ok(out)
}

fn written(rt: &impl Abort, alloc: Global, line: &[u8]) -> Result<Vec<u8>, Fail> {
    let found = tokens_of(rt, alloc, line)?;
    Ok(line_of(alloc, found.as_slice())?)
}

// Lines, and their canonical texts.
const WRITTEN: &[(&[u8], &[u8])] = &[
    (b"  # nothing", b"\n"),
    (b"data\tx 1  0 # a datum", b"data x 1 0\n"),
    (b"put x [ 0 ]=( y[ i ]==3 )", b"put x[0] = (y[i] == 3)\n"),
    (b"set a=((1)?2<<3:(4))", b"set a = ((1) ? 2 << 3 : (4))\n"),
];

#[test]
fn writes_canonical_lines(rt: HostRuntime) -> Result<(), Fail> {
    for (line, expected) in WRITTEN {
        let found = written(&rt, rt.alloc(), line)?;
        assert_eq!(rt; found.as_slice(), *expected, "at {line:?}");
    }
    Ok(())
}

#[test]
fn reads_words_and_tells_texts(rt: HostRuntime) {
    assert!(rt; Word::from_text(b"frame") == Some(Word::Frame));
    assert!(rt; Word::from_text(b"frames").is_none());
    for (word, text) in &[(Word::Frame, b"frame".as_slice()), (Word::Min, b"min")] {
        assert_eq!(rt; word.text(), *text);
    }
    for (symbol, text) in &[(Symbol::ShiftLeft, b"<<".as_slice()), (Symbol::Less, b"<")] {
        assert_eq!(rt; symbol.text(), *text);
    }
}
