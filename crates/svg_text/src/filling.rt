//! Texts with holes.
ghost use Rattle.std.specs.Prelude.{◌≡◌, ◌++◌, OnOk, drop};
ghost use Rattle.svg_text.specs.Filling.{deep_text, filled_text, hole_text, pale_text, filled_hole_text};

use std::alloc::AllocError;
use wiz_base::{Bytes, push_decimal, push_text};

/// How many colours groups have.
const COLOURS: u8 = 8;

/// What fills a hole.
#[derive(Clone, Copy)]
pub enum Filler {
    Number(u64),
    /// The colour of a group.
    Deep(u8),
    /// The colour of its lanes.
    Pale(u8),
    /// The colour of receives from any source.
    Wild,
    /// The colour of what waits.
    Bad,
    Gray,
}

/// A text in which each % is a hole, filled in order.
#[tactic(auto, unfolding(crate::specs::Filling::filled_text))]
pub fn push_filled(out: &mut Bytes, text: &[u8], parts: &[Filler]) -> Result<(), AllocError>
    ensures { OnOk result (out.new ≡ out.old ++ filled_text text.now parts.now) }
{
    let mut left = parts;
    let mut rest = text;
    while let [byte, after @ ..] = rest {
        if *byte == b'%' {
            push_hole(out, left)?;
            left = behind(left);
        } else {
            out.push(*byte)?;
        }
        rest = after;
    }
    Ok(())
}

/// What fills the first hole.
fn push_hole(out: &mut Bytes, parts: &[Filler]) -> Result<(), AllocError>
    ensures { OnOk result (out.new ≡ out.old ++ hole_text parts.now) }
{
    match parts {
        [] => Ok(()),
        [part, ..] => push_part(out, *part),
    }
}

/// What fills the others.
fn behind<'a>(parts: &'a [Filler]) -> &'a [Filler]
    ensures { result.now ≡ drop 1 parts.entry.now }
{
    match parts {
        [] => parts,
        [_, after @ ..] => after,
    }
}

fn push_part(out: &mut Bytes, part: Filler) -> Result<(), AllocError>
    ensures { OnOk result (out.new ≡ out.old ++ filled_hole_text part) }
{
    match part {
        Filler::Number(number) => push_decimal(out, number),
        Filler::Deep(group) => push_deep(out, group % COLOURS),
        Filler::Pale(group) => push_pale(out, group % COLOURS),
        Filler::Wild => push_text(out, b"#b8007a"),
        Filler::Bad => push_text(out, b"#d21f1f"),
        Filler::Gray => push_text(out, b"#8a8f98"),
    }
}

fn push_deep(out: &mut Bytes, colour: u8) -> Result<(), AllocError>
    ensures { OnOk result (out.new ≡ out.old ++ deep_text colour) }
{
    match colour {
        0 => push_text(out, b"#2f6db5"),
        1 => push_text(out, b"#c06a12"),
        2 => push_text(out, b"#2f8a4a"),
        3 => push_text(out, b"#8a3f93"),
        4 => push_text(out, b"#b23b3b"),
        5 => push_text(out, b"#1f8690"),
        6 => push_text(out, b"#85741c"),
        _ => push_text(out, b"#5a5a86"),
    }
}

fn push_pale(out: &mut Bytes, colour: u8) -> Result<(), AllocError>
    ensures { OnOk result (out.new ≡ out.old ++ pale_text colour) }
{
    match colour {
        0 => push_text(out, b"#eaf1fb"),
        1 => push_text(out, b"#fdf1e3"),
        2 => push_text(out, b"#e9f6ec"),
        3 => push_text(out, b"#f6ebf7"),
        4 => push_text(out, b"#fbeaea"),
        5 => push_text(out, b"#e8f5f6"),
        6 => push_text(out, b"#f4f1e4"),
        _ => push_text(out, b"#eeeef4"),
    }
}
