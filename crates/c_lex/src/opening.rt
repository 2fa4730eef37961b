//! What begins at a place, by its first bytes.
ghost use Rattle.std.specs.Prelude.{◌≡◌, ◌≤◌, length, slice_index};
ghost use Rattle.c_lex.specs.Openings.{begins_line, opening};

use crate::bytes::{is_letter, is_space};
use crate::mark::mark_length;

/// What a place begins, whether or not that is well formed.
#[derive(Clone, Copy)]
pub enum Opening {
    TextEnd,
    Newline,
    Space,
    LineComment,
    BlockComment,
    Directive,
    Word,
    Digits,
    Quote,
    Mark,
    Nothing,
}

/// What begins at this place.
pub fn opening_at(text: &[u8], at: usize) -> Opening
    requires { at ≤ length text.now }
    ensures { result ≡ opening text.now at }
{
    if at >= text.len() {
        return Opening::TextEnd;
    }
    let byte = text[at];
    let next = byte_at(text, at + 1);
    if byte == b'\n' {
        Opening::Newline
    } else if is_space(byte) {
        Opening::Space
    } else if byte == b'/' && next == b'/' {
        Opening::LineComment
    } else if byte == b'/' && next == b'*' {
        Opening::BlockComment
    } else if byte == b'#' && begins_line(text, at) {
        Opening::Directive
    } else if is_letter(byte) {
        Opening::Word
    } else if byte.is_ascii_digit() {
        Opening::Digits
    } else if byte == b'"' {
        Opening::Quote
    } else if mark_length(text, at) > 0 {
        Opening::Mark
    } else {
        Opening::Nothing
    }
}

/// The byte at a place, and 0 after the end.
pub fn byte_at(text: &[u8], at: usize) -> u8
    ensures { result ≡ slice_index text.now at }
{
    if at < text.len() { text[at] } else { 0 }
}

/// Whether there are only blanks before this place on its line.
fn begins_line(text: &[u8], at: usize) -> bool
    requires { at ≤ length text.now }
    ensures { result ≡ begins_line text.now at }
{
    let mut from = at;
    while from > 0 {
        let before = text[from - 1];
        if before == b'\n' {
            return true;
        }
        if !is_space(before) {
            return false;
        }
        from -= 1;
    }
    true
}
