//! The arguments of the program.

use crate::stop::Stop;
use clap::{Arg, ArgMatches, Command};
use partial_cmd::Verb;
use std::alloc::{AllocError, Global};

/// Where a plan comes from.
#[derive(Clone, Copy, Debug, PartialEq, Eq)]
pub enum Source<'a> {
    /// Standard input.
    Input,
    /// The file with this path.
    File(&'a str),
}

/// What the arguments ask for.
#[derive(Clone, Copy, Debug)]
pub struct Request<'a> {
    /// What to do with the plan.
    pub verb: Verb,
    /// The plan.
    pub plan: Source<'a>,
    /// A second plan, whose run goes on with the memory of the first.
    pub next: Option<Source<'a>>,
}

impl<'a> Source<'a> {
    /// The source that a word names. A `-` is standard input.
    fn of(word: &'a str) -> Source<'a> {
        match word {
            "-" => Source::Input,
            path => Source::File(path),
        }
    }

    /// Its name in a fault.
    pub fn name(&self) -> &'a str {
        match self {
            Source::Input => "-",
            Source::File(path) => path,
        }
    }
}

/// What the help says of the commands together.
const EXAMPLES: &str = "Examples:
  partial replay plans/lost_exchange.plan
  partial check plans/lost_exchange.plan
  partial run - <plans/lost_exchange.plan
  partial run first.plan second.plan";

/// What the help says of a plan.
const PLAN: &str = "The file of the plan; standard input without it, or with -";

/// What the help says of a second plan.
const NEXT: &str = "The file of a second plan, run on the memory that the first one leaves; or -";

/// The arguments that the program takes: `replay [PLAN]`, `check [PLAN]` and `run [PLAN] [NEXT]`.
fn command<'a>(alloc: Global) -> Result<Command<'a>, AllocError> {
    let partial = Command::new(alloc, "partial")
        .about("Replays, checks and runs the plans of a partial snapshot memory")
        .after_help(EXAMPLES)
        .subcommand_required(true);
    let replay = "Makes the steps of the plan's turns one after another, and writes the outcome";
    let partial = with_verb(alloc, partial, "replay", replay, &[("plan", PLAN)])?;
    let check = "Replays the plan and judges the outcome: lawful or unlawful";
    let partial = with_verb(alloc, partial, "check", check, &[("plan", PLAN)])?;
    let run = "Runs the plan's ports in threads, without its turns, and writes the answers";
    with_verb(
        alloc,
        partial,
        "run",
        run,
        &[("plan", PLAN), ("next", NEXT)],
    )
}

/// The command with one more verb, which takes these arguments.
fn with_verb<'a>(
    alloc: Global,
    command: Command<'a>,
    verb: &'a str,
    about: &'a str,
    arguments: &[(&'a str, &'a str)],
) -> Result<Command<'a>, AllocError> {
    match verb_of(alloc, verb, about, arguments) {
        Ok(verb) => command.subcommand(verb),
        Err(error) => {
            drop(command);
            Err(error)
        }
    }
}

/// A verb that takes these arguments, each a name with what the help says of it.
fn verb_of<'a>(
    alloc: Global,
    verb: &'a str,
    about: &'a str,
    arguments: &[(&'a str, &'a str)],
) -> Result<Command<'a>, AllocError> {
    let mut command = Command::new(alloc, verb).about(about);
    for (name, help) in arguments {
        command = command.arg(Arg::new(alloc, name).help(help))?;
    }
    Ok(command)
}

/// The source that an argument of this name gives.
fn source_of<'a>(found: &ArgMatches<'a>, name: &str) -> Option<Source<'a>> {
    found.get_str(name).map(Source::of)
}

/// Reads the arguments. The first of them is the program's name.
///
/// # Errors
///
/// `Words` when the program doesn't take these arguments, or they ask for help. `BothInput` when both plans would come
/// from standard input.
pub fn request_of(alloc: Global, words: &[String]) -> Result<Request<'_>, Stop> {
    let matches = command(alloc)?.try_get_matches_from(words)?;
    let (verb, found) = match matches.subcommand() {
        Some(("replay", found)) => (Verb::Replay, found),
        Some(("check", found)) => (Verb::Check, found),
        Some(("run", found)) => (Verb::Run, found),
        _ => return Err(Stop::NotText),
    };
    let plan = source_of(found, "plan").unwrap_or(Source::Input);
    let next = match verb {
        Verb::Run => source_of(found, "next"),
        _ => None,
    };
    if plan == Source::Input && next == Some(Source::Input) {
        return Err(Stop::BothInput);
    }
    Ok(Request { verb, plan, next })
}
