//! Each public call once, with values worked out by hand.
use bstr::BStr;
use std::alloc::Global;
use std::process::Abort;
use std::rt::HostRuntime;
use std::test::Fail;
use wiz_base::{
    Bytes, Cursor, NumberFault, decimal, is_decimal, number_i64, push_decimal, push_number,
    push_text,
};

static NUMBERS: [(&[u8], Result<i64, NumberFault>); 12] = [
    (b"0", Ok(0)),
    (b"-12", Ok(-12)),
    (b"9223372036854775807", Ok(i64::MAX)),
    (b"-9223372036854775808", Ok(i64::MIN)),
    (b"", Err(NumberFault::Empty)),
    (b"-", Err(NumberFault::NotDigit { at: 1 })),
    (b"1a", Err(NumberFault::NotDigit { at: 1 })),
    (b"0-", Err(NumberFault::NotDigit { at: 1 })),
    (b"+1", Err(NumberFault::NotDigit { at: 0 })),
    (b"-0", Err(NumberFault::LeadingZero)),
    (b"00", Err(NumberFault::LeadingZero)),
    (b"9223372036854775808", Err(NumberFault::TooLarge)),
];

#[test]
fn numbers_are_read(rt: HostRuntime) {
    for (text, expected) in &NUMBERS {
        assert_eq!(rt; number_i64(text), *expected, "{}", BStr::new(text));
    }
}

/// Numbers up to 64.
static DECIMALS: [(&[u8], Option<u64>); 6] = [
    (b"0", Some(0)),
    (b"64", Some(64)),
    (b"65", None),
    (b"064", None),
    (b"", None),
    (b"-1", None),
];

#[test]
fn decimals_are_read(rt: HostRuntime) {
    for (text, expected) in &DECIMALS {
        assert_eq!(rt; decimal(text, 64), *expected, "{}", BStr::new(text));
    }
}

static ARE_DECIMAL: [(&[u8], bool); 5] = [
    (b"0", true),
    (b"99999999999999999999999", true),
    (b"00", false),
    (b"", false),
    (b"1 ", false),
];

#[test]
fn decimals_are_told_from_others(rt: HostRuntime) {
    for (text, expected) in &ARE_DECIMAL {
        assert_eq!(rt; is_decimal(text), *expected, "{}", BStr::new(text));
    }
}

/// A number, a text, a decimal number, a byte and a slice, one behind the other.
fn grown(alloc: Global) -> Result<Bytes, Fail> {
    let mut out = Bytes::from_vec(Vec::new(alloc));
    push_number(&mut out, -7)?;
    push_text(&mut out, b"ab")?;
    push_decimal(&mut out, 20)?;
    out.push(b'.')?;
    out.extend(b"c")?;
    Ok(out)
}

/// Bytes and a copy of them have these values.
fn check_bytes(rt: &(impl Abort + AllocGlobal), bytes: &Bytes, values: &[u8]) -> Result<(), Fail> {
    assert_eq!(rt; bytes.as_slice(), values);
    let copy = Bytes::copy_of(bytes)?;
    assert_eq!(rt; copy, Bytes::from_slice(rt.alloc(), values)?);
    Ok(())
}

#[test]
fn bytes_grow_at_the_end(rt: HostRuntime) -> Result<(), Fail> {
    let out = grown(rt.alloc())?;
    check_bytes(&rt, &out, b"-7ab20.c")?;
    assert_eq!(rt; out.len(), 8);
    assert_eq!(rt; out.into_vec().len(), 8);
    Ok(())
}

#[test]
fn new_bytes_are_empty(rt: HostRuntime) {
    assert!(rt; Bytes::from_vec(Vec::new(rt.alloc())).is_empty());
    assert_eq!(rt; Bytes::new(rt.alloc()).len(), 0);
}

static LINES: [Option<&[u8]>; 4] = [Some(b"ab"), Some(b""), Some(b"c"), None];

#[test]
fn lines_are_taken(rt: HostRuntime) {
    let mut all = Cursor::new(b"ab\n\nc");
    for expected in &LINES {
        assert_eq!(rt; all.line(), *expected);
    }
}

fn check_taken(rt: &impl Abort, taken: Option<&[u8]>, expected: Option<&[u8]>) {
    assert_eq!(rt; taken, expected);
}

#[test]
fn ended_lines_are_taken(rt: HostRuntime) {
    let mut ended = Cursor::new(b"xy\nab\nc");
    check_taken(&rt, ended.take(3), Some(b"xy\n"));
    check_taken(&rt, ended.ended_line(), Some(b"ab"));
    check_taken(&rt, ended.ended_line(), None);
    check_taken(&rt, ended.take(2), None);
    assert_eq!(rt; ended.rest(), b"c".as_slice());
}
