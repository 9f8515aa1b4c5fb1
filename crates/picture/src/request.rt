//! The arguments of the program.

use crate::stop::Stop;
use clap::{Arg, ArgAction, ArgMatches, Command};
use partial_picture::{Form, Window};
use std::alloc::{AllocError, Global};

/// What the arguments ask for.
#[derive(Clone, Copy, Debug)]
pub struct Request<'a> {
    /// The path of the plan. Without one, or with `-`, the plan comes from standard input.
    pub plan: Option<&'a str>,
    /// The form of the picture.
    pub form: Form,
    /// The steps to draw.
    pub window: Window,
}

/// An option without a value.
fn flag<'a>(alloc: Global, name: &'a str, help: &'a str) -> Arg<'a> {
    Arg::new(alloc, name)
        .long(name)
        .action(ArgAction::SetTrue)
        .help(help)
}

/// The arguments that the program takes: `[PLAN] [--window A B] [--words] [--text]`.
fn command<'a>(alloc: Global) -> Result<Command<'a>, AllocError> {
    let plan = Arg::new(alloc, "plan").help(
        "The file of the plan; standard input without it, or with -",
    );
    let picture = Command::new(alloc, "picture")
        .about("Draws the replay of a plan as SVG, to standard output")
        .arg(plan)?;
    let window = Arg::new(alloc, "window")
        .long("window")
        .action(ArgAction::Set)
        .num_args(2)
        .value_name("STEP")
        .help("Draws the steps from the first of these two numbers to the second alone");
    let picture = picture.arg(window)?;
    let words = flag(
        alloc,
        "words",
        "Draws the words of the memory below the ports",
    );
    let picture = picture.arg(words)?;
    match text_of(alloc) {
        Ok(text) => picture.arg(text),
        Err(error) => {
            drop(picture);
            Err(error)
        }
    }
}

/// The flag for a table in place of a drawing.
fn text_of<'a>(alloc: Global) -> Result<Arg<'a>, AllocError> {
    let help = "Writes the steps as a table in place of a drawing";
    flag(alloc, "text", help).conflicts_with("words")
}

/// Reads the window.
fn window_of(matches: &ArgMatches<'_>) -> Result<Window, Stop> {
    match matches.get_strs("window") {
        None => Ok(Window::Whole),
        Some([first, last]) => Ok(Window::Steps {
            first: first.parse().map_err(|_| Stop::Window)?,
            last: last.parse().map_err(|_| Stop::Window)?,
        }),
        Some(_) => Err(Stop::Window),
    }
}

/// Reads the arguments. The first of them is the program's name.
///
/// # Errors
///
/// `Words` when the program doesn't take these arguments, both `--words` and `--text` among them, or when they ask
/// for help. `Window` when a window isn't two numbers.
pub fn request_of(alloc: Global, words: &[String]) -> Result<Request<'_>, Stop> {
    let matches = command(alloc)?.try_get_matches_from(words)?;
    let form = match matches.get_flag("text") {
        true => Form::Table,
        false => Form::Drawing {
            has_words: matches.get_flag("words"),
        },
    };
    Ok(Request {
        plan: matches.get_str("plan").filter(|path| *path != "-"),
        form,
        window: window_of(&matches)?,
    })
}
