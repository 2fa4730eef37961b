//! The advice text of a run.
ghost use Rattle.std.specs.Prelude.{◌≡◌, ◌++◌, ◌∷◌, [], OnOk, IfOk};
ghost use Rattle.explanation_text.specs.AdviceTexts.{advice_text, block_text, blocks_text, bounds_text};

use plan_advice::Advice;
use run_model::ending::Ending;
use run_text::recording::push_ending;
use std::alloc::{AllocError, Global};
use wiz_base::{Bytes, push_decimal, push_text};

/// The advice text: what the advice costs and what the given plan does, the blocks, the bounds, and how the run ended.
pub fn advice_text(
    alloc: Global,
    advice: &Advice,
    given: u64,
    ending: &Ending,
) -> Result<Bytes, AllocError>
    ensures { IfOk result (λ text. text ≡ advice_text advice.now given ending.now) }
{
    let mut out = Bytes::new(alloc);
    push_text(&mut out, b"advice cost ")?;
    push_decimal(&mut out, advice.cost)?;
    push_text(&mut out, b" given ")?;
    push_decimal(&mut out, given)?;
    push_text(&mut out, b"\n")?;
    push_blocks(&mut out, advice.ends.as_slice())?;
    push_bounds(&mut out, advice.bounds.as_slice())?;
    push_ending(&mut out, ending)?;
    Ok(out)
}

/// The blocks, the first of which begins at rank 0.
fn push_blocks(out: &mut Bytes, ends: &[u8]) -> Result<(), AllocError>
    ensures { OnOk result (out.new ≡ out.old ++ blocks_text 0 ends.now) }
{
    let mut begin = 0;
    let mut rest = ends;
    while let [end, after @ ..] = rest {
        push_block(out, begin, end.saturating_sub(1))?;
        push_text(out, b"\n")?;
        begin = *end;
        rest = after;
    }
    Ok(())
}

/// The ranks of one block.
fn push_block(out: &mut Bytes, first: u8, last: u8) -> Result<(), AllocError>
    ensures { OnOk result (out.new ≡ out.old ++ block_text first last) }
{
    push_decimal(out, first as u64)?;
    if first == last {
        return Ok(());
    }
    push_text(out, b"-")?;
    push_decimal(out, last as u64)
}

/// The bound of each number of ranks.
fn push_bounds(out: &mut Bytes, bounds: &[u64]) -> Result<(), AllocError>
    ensures { OnOk result (out.new ≡ out.old ++ bounds_text 0 bounds.now) }
{
    let mut ranks = 0;
    let mut rest = bounds;
    while let [bound, after @ ..] = rest {
        push_bound(out, ranks, *bound)?;
        ranks += 1;
        rest = after;
    }
    Ok(())
}

fn push_bound(out: &mut Bytes, ranks: u64, bound: u64) -> Result<(), AllocError>
    ensures { OnOk result (out.new ≡ out.old ++ bounds_text ranks (bound ∷ [])) }
{
    push_text(out, b"bound ")?;
    push_decimal(out, ranks)?;
    push_text(out, b" ")?;
    push_decimal(out, bound)?;
    push_text(out, b"\n")
}
