//! What holds of the spans of a run. The body is empty; a caller's clause follows from its own.
ghost use Rattle.trace_json.specs.Laws.{SpansAreDisjoint};

use run_model::program::Program;

/// In a run each span of a rank has ended when a later one of its begins.
pub fn spans_are_disjoint<P: Program>(program: &P)
    ensures { SpansAreDisjoint (P.next program.now) }
{
    run_drawing::laws::lanes_rise(program);
}
