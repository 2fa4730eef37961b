//! Texts that no command prints: of numbers that no run has, of no events, of a plan that is refused, and the demo's program.
use explanation_text::advice::advice_text;
use explanation_text::order::{order_text, other_order_text};
use explanation_text::races::races_text;
use group_plan::read_plan;
use mpi_call::call::Halt;
use mpi_call::lists::Ranks;
use msg_races::names::{Name, Names};
use msg_races::receives::{Receives, WildcardReceive};
use other_picks::other::OtherPick;
use picked_runs::picks::Picks;
use plan_advice::{Advice, Bounds};
use replay_model::replayed::Replays;
use run_model::ending::Ending;
use run_model::history::History;
use std::alloc::Global;
use std::process::Abort;
use std::rt::HostRuntime;
use std::test::Fail;
use wiz_base::Bytes;
use wiz_trace::demo::demo_program;
use wiz_trace::regroup::refined_text;
use wiz_trace::trace::traces_text;

#[test]
fn the_highest_cost_is_told(rt: HostRuntime) -> Result<(), Fail> {
    let advice = Advice {
        ends: Ranks::from_slice(rt.alloc(), &[1])?,
        cost: u64::MAX,
        bounds: Bounds::new(rt.alloc()),
    };
    let text = advice_text(rt.alloc(), &advice, 0, &Ending::Finished)?;
    let told = b"advice cost 18446744073709551615 given 0\n0\nfinished\n";
    assert_eq!(rt; text.as_slice(), told.as_slice());
    Ok(())
}

/// The receive with the highest number of the last rank.
fn last_receive(rt: &(impl Abort + AllocGlobal)) -> Receives {
    let receive = WildcardReceive {
        rank: 63,
        start: u32::MAX,
        took: Name { rank: 0, start: 12 },
        others: Names::new(rt.alloc()),
    };
    let mut receives = Receives::new(rt.alloc());
    assert!(rt; receives.push(receive).is_ok());
    receives
}

#[test]
fn the_highest_start_is_told(rt: HostRuntime) -> Result<(), Fail> {
    let text = races_text(rt.alloc(), &last_receive(&rt), &Ending::Halted(Halt::Limit))?;
    let told = b"receive 63.4294967295 took 0.12 others none\nreceives 1 raced 0\nhalted limit\n";
    assert_eq!(rt; text.as_slice(), told.as_slice());
    Ok(())
}

/// The order text of another pick of a run without events.
fn picked_first(alloc: Global, at: u32) -> Result<Bytes, Fail> {
    let other = OtherPick {
        at,
        rank: 2,
        start: 0,
        sender: 63,
    };
    Ok(other_order_text(alloc, &History::new(alloc), &Picks::new(alloc), &other)?)
}

#[test]
fn no_events_have_an_order(rt: HostRuntime) -> Result<(), Fail> {
    let alloc = rt.alloc();
    let text = order_text(alloc, &History::new(alloc), &Picks::new(alloc))?;
    assert!(rt; text.is_empty());
    assert_eq!(rt;
        picked_first(alloc, 0)?.as_slice(),
        b"2 from 63\n".as_slice()
    );
    assert_eq!(rt;
        picked_first(alloc, 9)?.as_slice(),
        b"2 from 63\n".as_slice()
    );
    Ok(())
}

#[test]
fn no_replays_are_traced(rt: HostRuntime) -> Result<(), Fail> {
    let text = traces_text(rt.alloc(), &Replays::new(rt.alloc()))?;
    assert!(rt; text.is_empty());
    Ok(())
}

/// What is told of the logs that a plan makes of the log of a group.
fn refined(alloc: Global, group: &[u8], plan: &[u8]) -> Result<Bytes, Fail> {
    let inside = Ranks::from_slice(alloc, group)?;
    Ok(refined_text(alloc, &inside, &read_plan(alloc, plan)?)?)
}

#[test]
fn a_group_that_crosses_is_left_out(rt: HostRuntime) -> Result<(), Fail> {
    let some = refined(rt.alloc(), &[0, 2], b"0-1\n2\n")?;
    assert_eq!(rt; some.as_slice(), b"group 1 ranks 2\n".as_slice());
    assert!(rt; refined(rt.alloc(), &[3], b"0-3")?.is_empty());
    Ok(())
}

/// The demo's program with the highest numbers begins so.
const DEMO: &[u8] =
    b"#define SEED 2147483647\n#define ROUNDS 1000\nint main(void) {\n  int rank, k, i, d, s = SEED, x, t = 0;\n";

#[test]
fn the_demo_has_its_program(rt: HostRuntime) -> Result<(), Fail> {
    let text = demo_program(rt.alloc(), 2_147_483_647, 1000)?;
    assert_eq!(rt; text.len(), 913);
    assert!(rt; text.as_slice().starts_with(DEMO));
    assert_eq!(rt; demo_program(rt.alloc(), 1, 8)?.len(), 901);
    Ok(())
}
