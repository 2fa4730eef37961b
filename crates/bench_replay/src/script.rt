//! The script that is replayed.
use run_model::program::Program;

/// Rank 0 sends a number of messages to rank 1, which completes each receive before it posts the next. Other ranks end at once.
#[derive(Clone, Copy)]
pub struct Script {
    pub messages: u32,
}

impl Program for Script {
    ghost use Rattle.std.specs.Prelude.{[]};
    ghost use Rattle.bench_replay.specs.Script.{next_of};
    ghost use Rattle.bench_replay.specs.ScriptLaws.{asks_in_bounds, ends_exactly, enters_in_form, prints_on};

    ghost next = { λ p. next_of p.messages };

    ghost output = { λ p n rank replies. [] };

    ghost variables = { λ p n rank replies. [] };

    ghost ends_exactly = { λ p. ends_exactly p.messages };

    ghost prints_on = { λ p. prints_on p.messages };

    ghost asks_in_bounds = { λ p. asks_in_bounds p.messages };

    ghost enters_in_form = { λ p. enters_in_form p.messages };
}
