//! The forms of the commands, as a table, and the clap command that reads one.
ghost use Rattle.std.specs.Prelude.{◌≡◌, IfOk, MatchOption, None, Some, false, fold, map};
ghost use Rattle.clap.specs.Words.{app_of, new_app, rule_of, with_rule};
ghost use Rattle.wiz_words.specs.Forms.{IsForm, rule_by, verb_named};

use crate::command::Verb;
use crate::forms::FormPart::{Flag, Positional, Valued};
use clap::{Arg, ArgAction, Command};
use std::alloc::{AllocError, Global};

/// A command, its name, and the parts that its arguments have.
pub struct Form {
    pub verb: Verb,
    pub name: &'static str,
    pub parts: &'static [FormPart],
}

/// A part of a form, by its name.
#[derive(Clone, Copy)]
pub enum FormPart {
    /// A value that has to be there, by its place.
    Positional(&'static str),
    /// An option that has a value.
    Valued(&'static str),
    /// An option that has no value.
    Flag(&'static str),
}

/// The arguments of a recording.
const RECORD: &[FormPart] = &[
    Positional("PROGRAM"),
    Positional("PLAN"),
    Positional("PREFIX"),
    Valued("order"),
    Flag("serial"),
];

/// The arguments of a check.
const CHECK: &[FormPart] = &[Positional("PROGRAM"), Positional("PLAN"), Flag("serial")];

/// The arguments of a list of races.
const RACES: &[FormPart] = &[
    Positional("PROGRAM"),
    Positional("PLAN"),
    Valued("order"),
    Flag("serial"),
    Valued("orders"),
];

/// The arguments of an advice.
const ADVISE: &[FormPart] = &[
    Positional("PROGRAM"),
    Positional("PLAN"),
    Positional("K"),
    Valued("order"),
    Flag("serial"),
];

/// The arguments of a demo.
const DEMO: &[FormPart] = &[Positional("SEED"), Positional("ROUNDS")];

/// The arguments of a replay.
const REPLAY: &[FormPart] = &[
    Positional("LOG"),
    Valued("program"),
    Valued("break"),
    Flag("serial"),
];

/// The arguments of what reads one log.
const SHOW: &[FormPart] = &[Positional("LOG")];

/// The arguments of a conversion.
const CONVERT: &[FormPart] = &[Positional("LOG"), Positional("FILE"), Flag("text")];

/// The arguments of a refinement.
const REFINE: &[FormPart] = &[Positional("LOG"), Positional("PLAN"), Positional("PREFIX")];

/// The arguments of a join.
const JOIN: &[FormPart] = &[Positional("LOG"), Positional("OTHER"), Positional("FILE")];

/// The arguments of a comparison.
const DIFF: &[FormPart] = &[Positional("LOG"), Positional("OTHER")];

/// The arguments of a list of waits.
const WAITS: &[FormPart] = &[
    Positional("PROGRAM"),
    Positional("PLAN"),
    Valued("order"),
    Flag("serial"),
];

/// The arguments of a picture.
const PICTURE: &[FormPart] = &[
    Positional("PROGRAM"),
    Positional("PLAN"),
    Positional("FILE"),
    Valued("order"),
    Flag("trace"),
    Flag("serial"),
];

/// The arguments of a watch.
const WATCH: &[FormPart] = &[
    Positional("LOG"),
    Positional("RANK"),
    Positional("NAME"),
    Valued("program"),
    Flag("serial"),
];

/// The arguments of a place of a replay.
const AT: &[FormPart] = &[
    Positional("LOG"),
    Positional("break"),
    Valued("program"),
    Flag("serial"),
];

/// The arguments of the way of a message.
const WHERE: &[FormPart] = &[
    Positional("LOG"),
    Positional("MESSAGE"),
    Valued("program"),
    Flag("serial"),
];

/// The arguments of a search.
const EXPLORE: &[FormPart] = &[
    Positional("PROGRAM"),
    Positional("PLAN"),
    Positional("PREFIX"),
    Valued("most"),
    Valued("polls"),
    Valued("under"),
];

/// How many commands there are.
const COMMANDS: usize = 18;

/// The forms of the commands.
static FORMS: [Form; COMMANDS] = [
    Form {
        verb: Verb::Record,
        name: "record",
        parts: RECORD,
    },
    Form {
        verb: Verb::Check,
        name: "check",
        parts: CHECK,
    },
    Form {
        verb: Verb::Races,
        name: "races",
        parts: RACES,
    },
    Form {
        verb: Verb::Advise,
        name: "advise",
        parts: ADVISE,
    },
    Form {
        verb: Verb::Demo,
        name: "demo",
        parts: DEMO,
    },
    Form {
        verb: Verb::Replay,
        name: "replay",
        parts: REPLAY,
    },
    Form {
        verb: Verb::Show,
        name: "show",
        parts: SHOW,
    },
    Form {
        verb: Verb::Stats,
        name: "stats",
        parts: SHOW,
    },
    Form {
        verb: Verb::Convert,
        name: "convert",
        parts: CONVERT,
    },
    Form {
        verb: Verb::Refine,
        name: "refine",
        parts: REFINE,
    },
    Form {
        verb: Verb::Join,
        name: "join",
        parts: JOIN,
    },
    Form {
        verb: Verb::Diff,
        name: "diff",
        parts: DIFF,
    },
    Form {
        verb: Verb::Waits,
        name: "waits",
        parts: WAITS,
    },
    Form {
        verb: Verb::Picture,
        name: "picture",
        parts: PICTURE,
    },
    Form {
        verb: Verb::Watch,
        name: "watch",
        parts: WATCH,
    },
    Form {
        verb: Verb::At,
        name: "at",
        parts: AT,
    },
    Form {
        verb: Verb::Where,
        name: "where",
        parts: WHERE,
    },
    Form {
        verb: Verb::Explore,
        name: "explore",
        parts: EXPLORE,
    },
];

/// The form of the command of a name.
pub fn form_named(name: &str) -> Option<&'static Form>
    ensures { MatchOption result (verb_named name.now ≡ None)
        (λ form. (verb_named name.now ≡ Some form.now.verb) × IsForm form.now) }
{
    let mut rest: &[Form] = &FORMS;
    while let [form, after @ ..] = rest {
        if name == form.name {
            return Some(form);
        }
        rest = after;
    }
    None
}

/// The clap command that reads the arguments of a form.
pub fn clap_form<'a>(alloc: Global, form: &Form) -> Result<Command<'a>, AllocError>
    ensures { IfOk result (λ read. app_of read ≡ fold with_rule (new_app form.now.name.now) (map rule_by form.now.parts.now)) }
{
    let name: &'a str = form.name;
    let mut read = Command::new(alloc, name);
    let mut rest = form.parts;
    while let [part, after @ ..] = rest {
        read = read.arg(argument_of(alloc, *part))?;
        rest = after;
    }
    Ok(read)
}

/// The argument of a part.
fn argument_of<'a>(alloc: Global, part: FormPart) -> Arg<'a>
    ensures rule { rule_of result ≡ rule_by part }
    ensures local { result.global ≡ false }
{
    match part {
        Positional(name) => Arg::new(alloc, name).required(true),
        Valued(name) => Arg::new(alloc, name).long(name),
        Flag(name) => Arg::new(alloc, name).long(name).action(ArgAction::SetTrue),
    }
}
