//! Formats of `printf`.
ghost use Rattle.std.specs.Prelude.{◌≡◌, ◌++◌, IfOk, List, MatchOption, OnOk, Some, ℕ, option_map, option_to_list};
ghost use Rattle.c_program.specs.FormatReading.{begins_width, converts, end, on, format_pieces, step_of};
ghost use Rattle.c_program.specs.Formats.{IsFormat, SpelledOrNot, escaped, ints_taken, ints_taken_by};
ghost use Rattle.c_program.specs.declared.format.FormatPiece.{FormatPiece};

use std::alloc::{AllocError, Global};

/// How an int is filled up to its width.
#[derive(Clone, Copy)]
pub enum Filling {
    /// Blanks on its left.
    Blanks,
    /// Blanks on its right.
    Left,
    /// Zeros on its left, after the `-`.
    Zeros,
}

#[derive(Clone, Copy)]
pub enum Base {
    Decimal,
    Hexadecimal,
}

/// A piece of a format: a byte, or the place of the next int, `width` bytes at least.
#[derive(Clone, Copy)]
pub enum FormatPiece {
    Byte(u8),
    Int {
        filling: Filling,
        width: u8,
        base: Base,
    },
}

/// What stands before a byte of a format.
#[derive(Clone, Copy)]
pub enum Before {
    /// Whole pieces.
    Pieces,
    /// `\`.
    Escape,
    /// `%`.
    Percent,
    /// `%` and a filling.
    Filled(Filling),
    /// `%`, a filling or not, and digits of a width.
    Wide(Filling, u8),
}

/// What one byte adds.
#[derive(Clone, Copy)]
pub struct FormatStep {
    pub before: Before,
    pub piece: Option<FormatPiece>,
}

/// No piece ends at this byte.
fn on(before: Before) -> Option<FormatStep>
    ensures { result ≡ on before }
{
    Some(FormatStep {
        before,
        piece: None,
    })
}

fn end(piece: FormatPiece) -> Option<FormatStep>
    ensures { result ≡ end piece }
{
    Some(FormatStep {
        before: Before::Pieces,
        piece: Some(piece),
    })
}

fn escaped(byte: u8) -> Option<u8>
    ensures { result ≡ escaped byte }
{
    match byte {
        b'n' => Some(b'\n'),
        b't' => Some(b'\t'),
        b'r' => Some(b'\r'),
        b'\\' | b'"' | b'\'' => Some(byte),
        _ => None,
    }
}

fn converts(filling: Filling, width: u8, byte: u8) -> Option<FormatStep>
    ensures { result ≡ converts filling width byte }
{
    match byte {
        b'd' | b'i' => end(FormatPiece::Int {
            filling,
            width,
            base: Base::Decimal,
        }),
        b'x' => end(FormatPiece::Int {
            filling,
            width,
            base: Base::Hexadecimal,
        }),
        _ => None,
    }
}

fn begins_width(filling: Filling, byte: u8) -> Option<FormatStep>
    ensures { result ≡ begins_width filling byte }
{
    if byte >= b'1' && byte <= b'9' {
        on(Before::Wide(filling, byte - b'0'))
    } else {
        converts(filling, 0, byte)
    }
}

/// One byte more. `None` where no format goes on so.
fn next_step(before: Before, byte: u8) -> Option<FormatStep>
    ensures { result ≡ step_of before byte }
{
    match before {
        Before::Pieces => match byte {
            b'\\' => on(Before::Escape),
            b'%' => on(Before::Percent),
            _ => end(FormatPiece::Byte(byte)),
        },
        Before::Escape => end(FormatPiece::Byte(escaped(byte)?)),
        Before::Percent => match byte {
            b'%' => end(FormatPiece::Byte(b'%')),
            b'-' => on(Before::Filled(Filling::Left)),
            b'0' => on(Before::Filled(Filling::Zeros)),
            _ => begins_width(Filling::Blanks, byte),
        },
        Before::Filled(filling) => begins_width(filling, byte),
        Before::Wide(filling, width) => {
            if width < 10 && byte >= b'0' && byte <= b'9' {
                on(Before::Wide(filling, width * 10 + (byte - b'0')))
            } else {
                converts(filling, width, byte)
            }
        }
    }
}

fn ints(piece: Option<FormatPiece>) -> usize
    ensures { result ≡ ints_taken_by piece }
{
    match piece {
        Some(FormatPiece::Int { .. }) => 1,
        _ => 0,
    }
}

/// How many ints a format takes, or `None` if the bytes are no format. Takes no memory.
#[tactic(auto, using(crate::proofs::FormatLaws::counted))]
pub fn count_ints(format: &[u8]) -> Option<usize>
    ensures { result ≡ option_map ints_taken (format_pieces format.now) }
{
    let mut count = 0;
    let mut before = Before::Pieces;
    let mut left = format;
    while let [byte, after @ ..] = left {
        let step = next_step(before, *byte)?;
        count += ints(step.piece);
        before = step.before;
        left = after;
    }
    match before {
        Before::Pieces => Some(count),
        _ => None,
    }
}

fn push(found: &mut Vec<FormatPiece>, piece: Option<FormatPiece>) -> Result<(), AllocError>
    ensures { OnOk result (found.new.items ≡ found.old.items ++ option_to_list piece) }
{
    if let Some(piece) = piece {
        found.push(piece)?;
    }
    Ok(())
}

/// The pieces of a format, or `None` if the bytes are no format.
#[tactic(auto, using(crate::proofs::FormatLaws::appended, crate::proofs::Spelling::format_reads, crate::proofs::Spelling::read_spells))]
pub fn pieces(alloc: Global, format: &[u8]) -> Result<Option<Vec<FormatPiece>>, AllocError>
    ensures read { IfOk result (λ found. option_map (λ pieces. pieces.items) found ≡ format_pieces format.now) }
    ensures spelled { IfOk result (λ found. MatchOption found ((pieces : List FormatPiece) → IsFormat format.now pieces → ⊥)
        (λ pieces. IsFormat format.now pieces.items)) }
{
    let mut found = Vec::new(alloc);
    let mut before = Before::Pieces;
    let mut left = format;
    while let [byte, after @ ..] = left {
        let Some(step) = next_step(before, *byte) else {
            return Ok(None);
        };
        push(&mut found, step.piece)?;
        before = step.before;
        left = after;
    }
    match before {
        Before::Pieces => Ok(Some(found)),
        _ => Ok(None),
    }
}

/// The pieces that are read off a format are those that its bytes spell, so that there is one list of them, or none.
pub fn one_spelling()
    ensures read { (bytes : List ℕ) (pieces : List FormatPiece) → IsFormat bytes pieces → format_pieces bytes ≡ Some pieces }
    ensures spelled { (bytes : List ℕ) (pieces : List FormatPiece) → format_pieces bytes ≡ Some pieces → IsFormat bytes pieces }
    ensures either { (bytes : List ℕ) → SpelledOrNot bytes }
{}
