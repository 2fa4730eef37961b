//! What holds of every drawing. The bodies are empty; a caller's clause follows from theirs.
ghost use Rattle.run_drawing.specs.Laws.{ArrowsGoRight, ColumnsRise, LanesRise, SameDrawing, SameMates};

use run_model::program::Program;

/// An event stands to the left of those that it is before, unless it stops its rank.
pub fn columns_rise()
    ensures { ColumnsRise }
{}

/// Messages, collectives and probes go right.
pub fn arrows_go_right()
    ensures { ArrowsGoRight }
{}

/// In a run each call of a rank stands to the right of its earlier ones.
pub fn lanes_rise<P: Program>(program: &P)
    ensures { LanesRise (P.next program.now) }
{}

/// Two runs of a program have one drawing if each rank has seen the same in both, and if the synchronous sends that were completed are
/// paired with the same receives.
pub fn same_drawing<P: Program>(program: &P)
    ensures { SameDrawing (P.next program.now) }
{}

/// They are where the messages of these sends were received.
pub fn same_mates<P: Program>(program: &P)
    ensures { SameMates (P.next program.now) }
{}
