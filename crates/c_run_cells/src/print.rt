//! What `printf` prints.
ghost use Rattle.std.specs.Prelude.{◌≡◌, ◌++◌, ◌∷◌, ◌<◌, [], IfOk, List, OnOk, replicate};
ghost use Rattle.c_program.specs.declared.format.FormatPiece.{FormatPiece};
ghost use Rattle.c_program.specs.Prints.{digit_text, padded, hexadecimal_text, int_text, sign_text, size_text, text_of};

use c_program::format::{Base, Filling, FormatPiece};
use std::alloc::{AllocError, Global};
use wiz_base::{Bytes, push_decimal};

/// The text of a format with its ints.
pub fn text_of(alloc: Global, format: &[FormatPiece], ints: &[i32]) -> Result<Vec<u8>, AllocError>
    ensures { IfOk result (λ text. text.items ≡ text_of format.now ints.now) }
{
    let mut text = Bytes::new(alloc);
    let mut pieces = format;
    let mut left = ints;
    while let [piece, after @ ..] = pieces {
        left = push_piece(alloc, &mut text, *piece, left)?;
        pieces = after;
    }
    Ok(text.into_vec())
}

/// Prints a piece, and says which ints are left.
fn push_piece<'a>(
    alloc: Global,
    out: &mut Bytes,
    piece: FormatPiece,
    ints: &'a [i32],
) -> Result<&'a [i32], AllocError>
    ensures { IfOk result (λ rest. (pieces : List FormatPiece) → out.new ++ text_of pieces rest.now ≡ out.old ++ text_of (piece ∷ pieces) ints.now) }
{
    match piece {
        FormatPiece::Byte(byte) => {
            out.push(byte)?;
            Ok(ints)
        }
        FormatPiece::Int {
            filling,
            width,
            base,
        } => match ints {
            [] => Ok(ints),
            [value, rest @ ..] => {
                push_int(alloc, out, filling, width, base, *value)?;
                Ok(rest)
            }
        },
    }
}

fn push_int(
    alloc: Global,
    out: &mut Bytes,
    filling: Filling,
    width: u8,
    base: Base,
    value: i32,
) -> Result<(), AllocError>
    ensures { OnOk result (out.new ≡ out.old ++ int_text filling width base value) }
{
    let sign = sign_of(alloc, base, value)?;
    let size = size_of(alloc, base, value)?;
    let missing = (width as usize)
        .saturating_sub(sign.len())
        .saturating_sub(size.len());
    push_filled(out, filling, missing, sign.as_slice(), size.as_slice())
}

/// The `-` of an int.
fn sign_of(alloc: Global, base: Base, value: i32) -> Result<Bytes, AllocError>
    ensures { IfOk result (λ text. text ≡ sign_text base value) }
{
    let mut text = Bytes::new(alloc);
    if value < 0 {
        if let Base::Decimal = base {
            text.push(b'-')?;
        }
    }
    Ok(text)
}

/// The digits of an int.
fn size_of(alloc: Global, base: Base, value: i32) -> Result<Bytes, AllocError>
    ensures { IfOk result (λ text. text ≡ size_text base value) }
{
    let mut text = Bytes::new(alloc);
    match base {
        Base::Decimal => push_decimal(&mut text, value.unsigned_abs() as u64)?,
        Base::Hexadecimal => push_hexadecimal(&mut text, value.cast_unsigned())?,
    }
    Ok(text)
}

/// Calls itself at most eight deep.
#[tactic(auto, using(crate::proofs::PrintLaws::hexadecimal_digit, crate::proofs::PrintLaws::hexadecimal_step))]
fn push_hexadecimal(out: &mut Bytes, n: u32) -> Result<(), AllocError>
    ensures { OnOk result (out.new ≡ out.old ++ hexadecimal_text n) }
{
    if n < 16 {
        out.push(digit_text(n as u8))?;
        return Ok(());
    }
    push_hexadecimal(out, n / 16)?;
    out.push(digit_text((n % 16) as u8))?;
    Ok(())
}

fn digit_text(digit: u8) -> u8
    requires { digit < 16 }
    ensures { result ≡ digit_text digit }
{
    if digit < 10 {
        b'0' + digit
    } else {
        b'a' + (digit - 10)
    }
}

fn push_filled(
    out: &mut Bytes,
    filling: Filling,
    missing: usize,
    sign: &[u8],
    size: &[u8],
) -> Result<(), AllocError>
    ensures { OnOk result (out.new ≡ out.old ++ padded filling missing sign.now size.now) }
{
    match filling {
        Filling::Blanks => {
            push_bytes(out, missing, b' ')?;
            out.extend(sign)?;
            out.extend(size)
        }
        Filling::Left => {
            out.extend(sign)?;
            out.extend(size)?;
            push_bytes(out, missing, b' ')
        }
        Filling::Zeros => {
            out.extend(sign)?;
            push_bytes(out, missing, b'0')?;
            out.extend(size)
        }
    }
}

fn push_bytes(out: &mut Bytes, count: usize, byte: u8) -> Result<(), AllocError>
    ensures { OnOk result (out.new ≡ out.old ++ replicate count byte) }
{
    for _i in 0..count {
        out.push(byte)?;
    }
    Ok(())
}
