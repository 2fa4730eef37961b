//! The forms of the commands, each with what it does.
ghost use Rattle.std.specs.Prelude.{◌≡◌, ◌<◌, ◌⊎◌, ⊤, MatchOption, length};

/// How many commands there are.
const COMMANDS: usize = 18;

/// The forms, in the order of docs/COMMANDS.md.
static FORMS: [&'static str; COMMANDS] = [
    "wiz record PROGRAM PLAN PREFIX [--order FILE] [--serial]\n    runs a program and writes the log of each group of the plan\n",
    "wiz check PROGRAM PLAN [--serial]\n    runs a program and replays each group of the plan\n",
    "wiz races PROGRAM PLAN [--order FILE] [--serial] [--orders PREFIX]\n    runs a program and lists its message races, and with --orders writes orders that show them\n",
    "wiz advise PROGRAM PLAN K [--order FILE] [--serial]\n    runs a program and finds the groups of at most K neighbouring ranks, 1 to 64, whose logs keep the fewest ints\n",
    "wiz demo SEED ROUNDS\n    runs a program of its own, made from SEED with 1 to 1000 rounds, and replays its groups\n",
    "wiz replay LOG [--program FILE] [--break R:C] [--serial]\n    replays the group of a log, to its end or to call C of rank R\n",
    "wiz show LOG\n    lists the entries of a log\n",
    "wiz stats LOG\n    counts the entries of a log\n",
    "wiz convert LOG FILE [--text]\n    writes a log to FILE in format 2, or in format 1 with --text\n",
    "wiz refine LOG PLAN PREFIX\n    writes the logs of the plan's groups that lie in the group of a log\n",
    "wiz join LOG LOG FILE\n    writes the log of two groups together\n",
    "wiz diff LOG LOG\n    replays two logs and tells where what their ranks saw parts\n",
    "wiz waits PROGRAM PLAN [--order FILE] [--serial]\n    runs a program and tells, where it is stuck, who waits for whom\n",
    "wiz picture PROGRAM PLAN FILE [--order FILE] [--trace] [--serial]\n    runs a program and draws its messages as SVG, or with --trace as trace events in JSON\n",
    "wiz watch LOG R NAME [--program FILE] [--serial]\n    replays a log and tells each change of the variable NAME of rank R\n",
    "wiz at LOG R:C [--program FILE] [--serial]\n    replays a log to call C of rank R and tells where each rank stands\n",
    "wiz where LOG S.K [--program FILE] [--serial]\n    replays a log and tells where message K of rank S was sent, found and taken\n",
    "wiz explore PROGRAM PLAN PREFIX [--most N] [--polls K] [--under FILE]\n    lists every outcome that runs of a program have, each with an order that makes it again\n",
];

/// The form of the command that the first argument names, or all forms. Each ends with a newline.
pub fn usage(words: &[&str]) -> &'static [&'static str]
    ensures { (length result.now ≡ 1) ⊎ (length result.now ≡ COMMANDS) }
{
    match words.first() {
        Some(name) => match row_of(*name) {
            Some(row) => &FORMS[row..row + 1],
            None => &FORMS,
        },
        None => &FORMS,
    }
}

/// The row of a command.
fn row_of(name: &str) -> Option<usize>
    ensures { MatchOption result ⊤ (λ row. row < COMMANDS) }
{
    match name {
        "record" => Some(0),
        "check" => Some(1),
        "races" => Some(2),
        "advise" => Some(3),
        "demo" => Some(4),
        "replay" => Some(5),
        "show" => Some(6),
        "stats" => Some(7),
        "convert" => Some(8),
        "refine" => Some(9),
        "join" => Some(10),
        "diff" => Some(11),
        "waits" => Some(12),
        "picture" => Some(13),
        "watch" => Some(14),
        "at" => Some(15),
        "where" => Some(16),
        "explore" => Some(17),
        _ => None,
    }
}
