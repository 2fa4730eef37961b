//! Line by line through a text.
ghost use Rattle.std.specs.Prelude.{◌≡◌, ◌<◌, ⊤, MatchOption, option_copied, slice_index, take, length};
ghost use Rattle.wiz_base.specs.Lines.{HasNoNewline, IsEndedLine, IsLine, IsPrefixTaken};

use std::marker::Model;

/// The rest of a text, which is read a line at a time. Contracts see the bytes that are left.
/// Nothing here takes memory.
#[derive(Drop)]
pub struct Cursor<'a> {
    rest: &'a [u8],
}

impl<'a> Model for Cursor<'a> {
    ghost use Rattle.std.specs.Prelude.{List, ℕ};

    ghost Value = { List ℕ };

    ghost view = { λ c. c.rest.now };
}

impl<'a> Cursor<'a> {
    pub fn new(text: &'a [u8]) -> Self
        ensures { result ≡ text.now }
    {
        Cursor { rest: text }
    }

    /// The bytes that are left. A place in the text is the text's length less the length of these.
    pub fn rest(&self) -> &'a [u8]
        ensures { result.now ≡ self.now }
    {
        self.rest
    }

    /// The next line, without its newline. A last piece without a newline is a line too.
    pub fn line(&mut self) -> Option<&'a [u8]>
        ensures { IsLine self.old (option_copied result) self.new }
    {
        let ended = self.ended_line();
        if ended.is_some() || self.rest.is_empty() {
            return ended;
        }
        let line = self.rest;
        self.rest = &line[line.len()..];
        Some(line)
    }

    /// The next line, without its newline, if a newline ends it. Otherwise all is left as it was.
    pub fn ended_line(&mut self) -> Option<&'a [u8]>
        ensures { IsEndedLine self.old (option_copied result) self.new }
    {
        let text = self.rest;
        let end = first_newline(text)?;
        self.rest = &text[end + 1..];
        Some(&text[..end])
    }

    /// The next `count` bytes. If fewer are left, all is left as it was.
    pub fn take(&mut self, count: usize) -> Option<&'a [u8]>
        ensures { IsPrefixTaken self.old count (option_copied result) self.new }
    {
        let text = self.rest;
        if text.len() < count {
            return None;
        }
        let (taken, rest) = text.split_at(count);
        self.rest = rest;
        Some(taken)
    }
}

/// Where the first newline is.
fn first_newline(text: &[u8]) -> Option<usize>
    ensures none { MatchOption result (HasNoNewline text.now)
        (λ at. HasNoNewline (take at text.now)) }
    ensures within { MatchOption result ⊤ (λ at. at < length text.now) }
    ensures here { MatchOption result ⊤ (λ at. slice_index text.now at ≡ 10) }
{
    text.iter().position(|byte| *byte == b'\n')
}
