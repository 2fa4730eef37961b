//! Whole numbers as decimal text.
ghost use Rattle.std.specs.Prelude.{◌≡◌, ◌↔◌, ◌++◌, ◌<◌, ◌≤◌, OnOk, OnErr, IsTrue, SomeIff, FitsSigned, length, slice_index, drop};
ghost use Rattle.std.specs.Int.{w64};
ghost use Rattle.std.specs.Char.{IsAsciiDigit};
ghost use Rattle.std.specs.Str.Parse.{AllDigits, digits_value};
ghost use Rattle.wiz_base.specs.Decimals.{decimal_text, number_text};
ghost use Rattle.wiz_base.specs.Readings.{AreDigits, IsDecimal, IsDecimalUpTo, IsReading, digits_begin, with_sign};

use crate::bytes::Bytes;
use crate::fault::NumberFault;
use std::alloc::AllocError;

/// Reads `0`, or an optional `-`, a digit 1 to 9 and further digits, as a number of 64 bits. The
/// refusals are tested in the order of `NumberFault`. Takes no memory.
pub fn number_i64(text: &[u8]) -> Result<i64, NumberFault>
    ensures { IsReading text.now result }
{
    if text.is_empty() {
        return Err(NumberFault::Empty);
    }
    let begin = digits_begin(text);
    let at = digits_end(text, begin);
    if at < text.len() || at == begin {
        return Err(NumberFault::NotDigit { at });
    }
    if text[begin] == b'0' && text.len() > 1 {
        return Err(NumberFault::LeadingZero);
    }
    signed_value(begin == 1, &text[begin..]).ok_or(NumberFault::TooLarge)
}

/// Reads `0`, or a digit 1 to 9 and further digits, as a number of at most `most`. Takes no memory.
pub fn decimal(text: &[u8], most: u64) -> Option<u64>
    ensures { IsDecimalUpTo text.now most result }
{
    if !is_decimal(text) {
        return None;
    }
    value_up_to(text, most)
}

/// Whether a text is `0`, or a digit 1 to 9 and further digits, however many. Takes no memory.
pub fn is_decimal(text: &[u8]) -> bool
    ensures { IsTrue result ↔ IsDecimal text.now }
{
    if text.is_empty() || digits_end(text, 0) < text.len() {
        return false;
    }
    text[0] != b'0' || text.len() == 1
}

/// Where the digits begin: after a leading `-`.
fn digits_begin(text: &[u8]) -> usize
    requires { 0 < length text.now }
    ensures { result ≡ digits_begin text.now }
{
    if text[0] == b'-' { 1 } else { 0 }
}

/// Where the first byte from `begin` on is that is no digit, or the text's length.
fn digits_end(text: &[u8], begin: usize) -> usize
    requires { begin ≤ length text.now }
    ensures from { begin ≤ result }
    ensures within { result ≤ length text.now }
    ensures digits { AreDigits text.now begin result }
    ensures end { result < length text.now → ¬ (IsAsciiDigit (slice_index text.now result)) }
{
    let mut at = begin;
    while at < text.len() && text[at].is_ascii_digit() {
        at += 1;
    }
    at
}

/// What a sign and digits make, where that is a number of 64 bits.
fn signed_value(negative: bool, digits: &[u8]) -> Option<i64>
    requires { AllDigits 10 digits.now }
    ensures { let value = with_sign negative (digits_value 10 digits.now)
        in SomeIff result (FitsSigned w64 value) value }
{
    let size = value_up_to(digits, u64::MAX)?;
    if negative {
        0i64.checked_sub_unsigned(size)
    } else {
        0i64.checked_add_unsigned(size)
    }
}

/// What digits make, where that is at most `most`.
fn value_up_to(digits: &[u8], most: u64) -> Option<u64>
    requires { AllDigits 10 digits.now }
    ensures { SomeIff result (digits_value 10 digits.now ≤ most) (digits_value 10 digits.now) }
{
    let mut value: u64 = 0;
    for digit in digits {
        let tens = value.checked_mul(10)?;
        value = tens.checked_add((*digit - b'0') as u64)?;
    }
    if value <= most { Some(value) } else { None }
}

/// Appends a number as `number_i64` reads it, all or nothing.
pub fn push_number(out: &mut Bytes, value: i64) -> Result<(), AllocError>
    ensures ok { OnOk result (out.new ≡ out.old ++ number_text value) }
    ensures err { OnErr result (out.new ≡ out.old) }
{
    let mut text = [0; 21];
    let mut begin = fill_decimal(&mut text, value.unsigned_abs());
    if value < 0 {
        begin -= 1;
        text[begin] = b'-';
    }
    out.extend(&text[begin..])
}

/// Appends a number from 0 on as `decimal` reads it, all or nothing.
pub fn push_decimal(out: &mut Bytes, value: u64) -> Result<(), AllocError>
    ensures ok { OnOk result (out.new ≡ out.old ++ decimal_text value) }
    ensures err { OnErr result (out.new ≡ out.old) }
{
    let mut text = [0; 21];
    let begin = fill_decimal(&mut text, value);
    out.extend(&text[begin..])
}

/// Writes a number's decimal text at the end of `room`, and says where it begins.
fn fill_decimal(room: &mut [u8], value: u64) -> usize
    requires { 20 < length room.old }
    ensures from { 0 < result }
    ensures within { result < length room.new }
    ensures text { drop result room.new ≡ decimal_text value }
{
    let mut at = room.len() - 1;
    let mut left = value;
    while left >= 10 {
        room[at] = b'0' + (left % 10) as u8;
        left /= 10;
        at -= 1;
    }
    room[at] = b'0' + left as u8;
    at
}
