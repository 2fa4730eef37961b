//! The laws of a recording machine's runs, and what a probe binds in every run. Their bodies are empty; a caller's clause follows from
//! theirs.
ghost use Rattle.run_model.specs.MachineLaws.{StaysMatched, OrderBeginsSerial, OrderFixesRun, SerialEnds, TurnsFixSerial};
ghost use Rattle.run_model.specs.ProbeLaws.{ProbeStays, ReceiveGetsProbed};

use crate::program::Program;

/// Two runs that the machine makes of one program in one order of ranks are the same.
pub fn order_fixes_run<P: Program>(program: &P, n: u8)
    ensures { OrderFixesRun (P.next program.now) n }
{}

/// Turns have one serial run, and in it each rank has ended.
pub fn turns_fix_serial<P: Program>(program: &P, n: u8)
    ensures one { TurnsFixSerial (P.next program.now) n }
    ensures ends { SerialEnds (P.next program.now) n }
{}

/// A run that the machine makes without a Stuck reply begins the serial run of its order as turns.
pub fn order_begins_serial<P: Program>(program: &P, n: u8)
    ensures { OrderBeginsSerial (P.next program.now) n }
{}

/// The machine's event for a rank's next call goes on with its run.
pub fn goes_on<P: Program>(program: &P, n: u8)
    ensures { StaysMatched (P.next program.now) n }
{}

/// In every run a message that a probe found is there until the probe's rank posts a receive for it, and a receive with the source
/// and the tag that the probe returned gets it.
pub fn what_a_probe_binds<P: Program>(program: &P, n: u8)
    ensures stays { ProbeStays (P.next program.now) n }
    ensures gets { ReceiveGetsProbed (P.next program.now) n }
{}
