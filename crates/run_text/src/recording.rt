//! The record text of a run.
ghost use Rattle.std.specs.Prelude.{◌≡◌, ◌++◌, ◌∷◌, [], OnOk, IfOk};
ghost use Rattle.run_text.specs.RecordTexts.{ending_text, output_text, outputs_text, record_text};

use crate::call_text::push_halt;
use run_model::ending::Ending;
use run_model::lists::Outputs;
use std::alloc::{AllocError, Global};
use wiz_base::{Bytes, push_decimal, push_text};

/// The record text: what each rank printed, and how the run ended.
pub fn record_text(alloc: Global, outputs: &Outputs, ending: &Ending) -> Result<Bytes, AllocError>
    ensures { IfOk result (λ text. text ≡ record_text outputs.now ending.now) }
{
    let mut out = Bytes::new(alloc);
    push_outputs(&mut out, outputs.as_slice())?;
    push_ending(&mut out, ending)?;
    Ok(out)
}

/// What each rank printed, from rank 0 on.
fn push_outputs(out: &mut Bytes, outputs: &[Bytes]) -> Result<(), AllocError>
    ensures { OnOk result (out.new ≡ out.old ++ outputs_text 0 outputs.now) }
{
    let mut rank = 0;
    let mut rest = outputs;
    while let [output, after @ ..] = rest {
        push_printed(out, rank, output)?;
        rank += 1;
        rest = after;
    }
    Ok(())
}

/// What one rank printed.
fn push_printed(out: &mut Bytes, rank: u64, output: &Bytes) -> Result<(), AllocError>
    ensures { OnOk result (out.new ≡ out.old ++ outputs_text rank (output.now ∷ [])) }
{
    push_text(out, b"rank ")?;
    push_decimal(out, rank)?;
    push_text(out, b" ")?;
    push_output(out, output)?;
    Ok(())
}

/// A rank's output with its length.
pub fn push_output(out: &mut Bytes, output: &Bytes) -> Result<(), AllocError>
    ensures { OnOk result (out.new ≡ out.old ++ output_text output.now) }
{
    push_text(out, b"output ")?;
    push_decimal(out, output.len() as u64)?;
    push_text(out, b"\n")?;
    push_text(out, output.as_slice())?;
    push_text(out, b"\n")?;
    Ok(())
}

/// How a run ended.
pub fn push_ending(out: &mut Bytes, ending: &Ending) -> Result<(), AllocError>
    ensures { OnOk result (out.new ≡ out.old ++ ending_text ending.now) }
{
    match ending {
        Ending::Finished => push_text(out, b"finished\n"),
        Ending::Halted(halt) => {
            push_text(out, b"halted ")?;
            push_halt(out, halt)?;
            push_text(out, b"\n")?;
            Ok(())
        }
    }
}
