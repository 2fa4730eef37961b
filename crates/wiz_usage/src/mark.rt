//! A line of a text with a mark under one of its columns.
ghost use Rattle.std.specs.Prelude.{◌≡◌, ◌++◌, ◌-◌, ℕ, IfOk, List, OnOk, MatchOption, map, replicate};
ghost use Rattle.wiz_usage.specs.Marks.{IsLineOf, IsMarked, shown};

use std::alloc::{AllocError, Global};
use wiz_base::{Bytes, Cursor, push_text};

/// What stands for a byte that is not shown.
const UNSHOWN: u8 = b'?';

/// The line of a text with this number, and under it a caret in a column; both count from 1, the column in bytes. Nothing where the
/// text has no such line. A tab is shown as a blank, and another byte outside 32 to 126 as a question mark, so that each takes one
/// column.
pub fn marked_line(
    alloc: Global,
    text: &[u8],
    line: u32,
    column: u32,
) -> Result<Option<Bytes>, AllocError>
    ensures { IfOk result (λ found. MatchOption found ((one : List ℕ) → IsLineOf text.now line one → ⊥) (IsMarked text.now line column)) }
{
    let Some(bytes) = line_at(text, line) else {
        return Ok(None);
    };
    let mut out = Bytes::new(alloc);
    push_shown(&mut out, bytes)?;
    push_text(&mut out, b"\n")?;
    push_blanks(&mut out, column.saturating_sub(1))?;
    push_text(&mut out, b"^\n")?;
    Ok(Some(out))
}

/// The line with this number, without its newline. Behind the last newline there is a line too, which may be empty.
fn line_at(text: &[u8], number: u32) -> Option<&[u8]>
    ensures { MatchOption result ((line : List ℕ) → IsLineOf text.now number line → ⊥) (λ line. IsLineOf text.now number line.now) }
{
    if number == 0 {
        return None;
    }
    let mut cursor = Cursor::new(text);
    for _ in 1..number {
        cursor.ended_line()?;
    }
    match cursor.ended_line() {
        Some(line) => Some(line),
        None => Some(cursor.rest()),
    }
}

/// The bytes as they are shown.
fn push_shown(out: &mut Bytes, bytes: &[u8]) -> Result<(), AllocError>
    ensures { OnOk result (out.new ≡ out.old ++ map shown bytes.now) }
{
    for byte in bytes {
        out.push(shown(*byte))?;
    }
    Ok(())
}

/// What is shown of a byte.
fn shown(byte: u8) -> u8
    ensures { result ≡ shown byte }
{
    match byte {
        b'\t' => b' ',
        32..=126 => byte,
        _ => UNSHOWN,
    }
}

fn push_blanks(out: &mut Bytes, count: u32) -> Result<(), AllocError>
    ensures { OnOk result (out.new ≡ out.old ++ replicate count 32) }
{
    for _ in 0..count {
        out.push(b' ')?;
    }
    Ok(())
}
