//! The races text of a run.
ghost use Rattle.std.specs.Prelude.{◌≡◌, ◌++◌, OnOk, IfOk, flat_map};
ghost use Rattle.explanation_text.specs.RacesTexts.{names_text, others_text, raced, races_text, receive_text};

use msg_races::names::Name;
use msg_races::receives::{Receives, WildcardReceive};
use run_model::ending::Ending;
use run_text::recording::push_ending;
use srr_log::entry_text::push_name;
use std::alloc::{AllocError, Global};
use wiz_base::{Bytes, push_decimal, push_text};

/// The races text: each receive with the message that it took and the others, how many receives there are and how many of them have
/// others, and how the run ended.
pub fn races_text(alloc: Global, receives: &Receives, ending: &Ending) -> Result<Bytes, AllocError>
    ensures { IfOk result (λ text. text ≡ races_text receives.now ending.now) }
{
    let receives = receives.as_slice();
    let mut out = Bytes::new(alloc);
    push_receives(&mut out, receives)?;
    push_text(&mut out, b"receives ")?;
    push_decimal(&mut out, receives.len() as u64)?;
    push_text(&mut out, b" raced ")?;
    push_decimal(&mut out, raced(receives) as u64)?;
    push_text(&mut out, b"\n")?;
    push_ending(&mut out, ending)?;
    Ok(out)
}

fn push_receives(out: &mut Bytes, receives: &[WildcardReceive]) -> Result<(), AllocError>
    ensures { OnOk result (out.new ≡ out.old ++ flat_map receive_text receives.now) }
{
    let mut rest = receives;
    while let [receive, after @ ..] = rest {
        push_receive(out, receive)?;
        rest = after;
    }
    Ok(())
}

/// A receive on a line of its own.
fn push_receive(out: &mut Bytes, receive: &WildcardReceive) -> Result<(), AllocError>
    ensures { OnOk result (out.new ≡ out.old ++ receive_text receive.now) }
{
    push_text(out, b"receive ")?;
    push_name(out, receive.rank, receive.start)?;
    push_text(out, b" took ")?;
    push_name(out, receive.took.rank, receive.took.start)?;
    push_text(out, b" others")?;
    push_others(out, receive.others.as_slice())?;
    push_text(out, b"\n")
}

fn push_others(out: &mut Bytes, others: &[Name]) -> Result<(), AllocError>
    ensures { OnOk result (out.new ≡ out.old ++ others_text others.now) }
{
    match others {
        [] => push_text(out, b" none"),
        _ => push_names(out, others),
    }
}

/// Names, a blank before each.
pub(crate) fn push_names(out: &mut Bytes, names: &[Name]) -> Result<(), AllocError>
    ensures { OnOk result (out.new ≡ out.old ++ names_text names.now) }
{
    let mut rest = names;
    while let [name, after @ ..] = rest {
        push_text(out, b" ")?;
        push_name(out, name.rank, name.start)?;
        rest = after;
    }
    Ok(())
}

/// How many receives have others.
fn raced(receives: &[WildcardReceive]) -> usize
    ensures { result ≡ raced receives.now }
{
    let mut count = 0;
    let mut rest = receives;
    while let [receive, after @ ..] = rest {
        if !receive.others.as_slice().is_empty() {
            count += 1;
        }
        rest = after;
    }
    count
}
