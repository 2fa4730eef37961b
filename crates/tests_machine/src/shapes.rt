//! Which replies have the shape of a call.
use mpi_call::call::{Call, Source, Tag, TakeMode};
use mpi_call::lists::{Ints, Starts};
use mpi_call::reply::{Got, Item, Items, Reply};
use run_model::lists::View;
use run_model::shape::{Fit, shape};
use std::alloc::{AllocError, Global};
use std::process::Abort;
use std::rt::HostRuntime;
use std::test::Fail;

/// A receive of one int from rank 0 with tag 5.
fn post() -> Call {
    Call::Post {
        comm: 0,
        source: Source::From(0),
        tag: Tag::Is(5),
        room: 1,
    }
}

#[test]
fn a_receive_is_posted_at_once(rt: HostRuntime) {
    let view = View::new(rt.alloc());
    assert_eq!(rt; shape(2, 1, &view, &post(), &Reply::Done), Fit::Fits);
    assert_eq!(rt; shape(2, 1, &view, &post(), &Reply::NotYet), Fit::Misfits);
}

/// The reply that completes the receive by a message of rank 0.
fn took(alloc: Global, tag: u32, ints: &[i32]) -> Result<Reply, AllocError> {
    let got = Got::Message {
        source: 0,
        start: 0,
        tag,
        ints: Ints::from_slice(alloc, ints)?,
    };
    let mut items = Items::new(alloc);
    items.push(Item { index: 0, got })?;
    Ok(Reply::Took(items))
}

/// Whether the completion of the receive may give a message.
fn fit(alloc: Global, tag: u32, ints: &[i32]) -> Result<Fit, AllocError> {
    let mut view = View::new(alloc);
    view.push((post(), Reply::Done))?;
    let take = Call::Take {
        starts: Starts::from_slice(alloc, &[0])?,
        mode: TakeMode::All,
    };
    Ok(shape(2, 1, &view, &take, &took(alloc, tag, ints)?))
}

#[test]
fn a_message_fits_its_receive(rt: HostRuntime) -> Result<(), Fail> {
    let alloc = rt.alloc();
    assert_eq!(rt; fit(alloc, 5, &[7])?, Fit::Fits, "one int");
    assert_eq!(rt; fit(alloc, 5, &[])?, Fit::Fits, "no ints");
    assert_eq!(rt;
        fit(alloc, 5, &[7, 8])?,
        Fit::Misfits,
        "more ints than there is room for"
    );
    assert_eq!(rt; fit(alloc, 6, &[7])?, Fit::Misfits, "another tag");
    Ok(())
}
