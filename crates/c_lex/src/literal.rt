//! The numbers of C.
ghost use Rattle.std.specs.Prelude.{◌≡◌, ◌≤◌, SomeIff, length};
ghost use Rattle.std.specs.Str.Parse.{AllDigits, digits_value};
ghost use Rattle.c_lex.specs.declared.limits.TheConstants.{GREATEST_LITERAL};
ghost use Rattle.c_lex.specs.Literals.{base, literal, prefix_length};

use crate::limits::GREATEST_LITERAL;

/// The number that a literal spells: `0x` or `0X` and hexadecimal digits, `0` and octal digits, or
/// decimal digits. `None` where the word is no literal, or above
/// `GREATEST_LITERAL`. Takes no memory.
pub fn literal_value(word: &[u8]) -> Option<u32>
    ensures { result ≡ literal word.now }
{
    let prefix = prefix_length(word);
    let digits = &word[prefix..];
    if digits.is_empty() {
        return None;
    }
    let value = value_up_to(base(word), digits)?;
    Some(value as u32)
}

/// How many bytes come before the digits.
fn prefix_length(word: &[u8]) -> usize
    ensures value { result ≡ prefix_length word.now }
    ensures within { result ≤ length word.now }
{
    if word.len() >= 2 && word[0] == b'0' && (word[1] == b'x' || word[1] == b'X') {
        2
    } else {
        0
    }
}

/// The base of the digits.
fn base(word: &[u8]) -> u32
    ensures { result ≡ base word.now }
{
    if prefix_length(word) == 2 {
        return 16;
    }
    if !word.is_empty() && word[0] == b'0' {
        8
    } else {
        10
    }
}

/// What digits make, where that is no more than `GREATEST_LITERAL`.
fn value_up_to(base: u32, digits: &[u8]) -> Option<u64>
    requires low { 2 ≤ base }
    requires high { base ≤ 16 }
    ensures { SomeIff result (AllDigits base digits.now × (digits_value base digits.now ≤ GREATEST_LITERAL))
        (digits_value base digits.now) }
{
    let mut value: u64 = 0;
    for byte in digits {
        let digit = (*byte as char).to_digit(base)?;
        value = value * base as u64 + digit as u64;
        if value > GREATEST_LITERAL {
            return None;
        }
    }
    Some(value)
}
