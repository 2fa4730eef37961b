//! Numbers as text, one after the other.
ghost use Rattle.std.specs.Prelude.{◌≡◌, ◌++◌, ℕ, List, OnOk, map};
ghost use Rattle.srr_log.specs.EntryText.{by_commas, each_after};

use std::alloc::AllocError;
use wiz_base::{Bytes, push_decimal, push_number, push_text};

/// A number with a text.
pub trait Spelled {
    ghost text: { Self → List ℕ };

    /// Appends the number's text.
    fn push_text(&self, out: &mut Bytes) -> Result<(), AllocError>
        ensures { OnOk result (out.new ≡ out.old ++ text self.now) };
}

impl Spelled for u8 {
    ghost use Rattle.wiz_base.specs.Decimals.{decimal_text};

    ghost text = { decimal_text };

    fn push_text(&self, out: &mut Bytes) -> Result<(), AllocError> {
        push_decimal(out, *self as u64)
    }
}

impl Spelled for u32 {
    ghost use Rattle.wiz_base.specs.Decimals.{decimal_text};

    ghost text = { decimal_text };

    fn push_text(&self, out: &mut Bytes) -> Result<(), AllocError> {
        push_decimal(out, *self as u64)
    }
}

impl Spelled for i32 {
    ghost use Rattle.wiz_base.specs.Decimals.{number_text};

    ghost text = { number_text };

    fn push_text(&self, out: &mut Bytes) -> Result<(), AllocError> {
        push_number(out, *self as i64)
    }
}

/// Appends numbers, a mark before each.
pub fn push_each_after<T: Spelled>(
    out: &mut Bytes,
    mark: u8,
    numbers: &[T],
) -> Result<(), AllocError>
    ensures { OnOk result (out.new ≡ out.old ++ each_after mark (map T.text numbers.now)) }
{
    let mut rest = numbers;
    while let [number, after @ ..] = rest {
        push_text(out, &[mark])?;
        number.push_text(out)?;
        rest = after;
    }
    Ok(())
}

/// Appends numbers with commas between.
pub fn push_by_commas<T: Spelled>(out: &mut Bytes, numbers: &[T]) -> Result<(), AllocError>
    ensures { OnOk result (out.new ≡ out.old ++ by_commas (map T.text numbers.now)) }
{
    let [first, others @ ..] = numbers else {
        return Ok(());
    };
    first.push_text(out)?;
    push_each_after(out, b',', others)
}
