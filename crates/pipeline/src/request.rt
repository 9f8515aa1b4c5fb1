//! The arguments of the program.

use crate::stop::Stop;
use clap::{Arg, ArgAction, ArgMatches, Command};
use partial_pipeline::{Options, Pipeline};
use std::alloc::{AllocError, Global};

/// An option with a number.
fn option<'a>(alloc: Global, name: &'a str, help: &'a str) -> Arg<'a> {
    Arg::new(alloc, name)
        .long(name)
        .action(ArgAction::Set)
        .value_name("N")
        .help(help)
}

/// The arguments that the program takes: `[--stages N] [--items N] [--looks N]`.
fn command<'a>(alloc: Global) -> Result<Command<'a>, AllocError> {
    let pipeline = Command::new(alloc, "pipeline").about(
        "Runs a pipeline of stages in threads, and shows how far each of them is",
    );
    let pipeline = pipeline.arg(option(
        alloc,
        "stages",
        "How many stages there are, 1 to 63; 4 without this",
    ))?;
    let pipeline = pipeline.arg(option(
        alloc,
        "items",
        "How many items each stage works on; 20000 without this",
    ))?;
    pipeline.arg(option(
        alloc,
        "looks",
        "How many scans the monitor makes before the last one at most, 0 to 65535; 1000 without this",
    ))
}

/// What each option takes.
const STAGES: Stop = Stop::Value {
    option: "stages",
    takes: "a number from 1 to 63",
};

const ITEMS: Stop = Stop::Value {
    option: "items",
    takes: "a number below 2^64",
};

const LOOKS: Stop = Stop::Value {
    option: "looks",
    takes: "a number from 0 to 65535",
};

/// The number of an option, or this one without the option.
fn number_of(matches: &ArgMatches<'_>, name: &str, without: u64) -> Option<u64> {
    match matches.get_str(name) {
        Some(text) => text.parse().ok(),
        None => Some(without),
    }
}

/// Reads the arguments. The first of them is the program's name. Without options they ask for a pipeline of
/// 4 stages with 20,000 items and at most 1,000 scans. Its memory has arenas of the default size.
///
/// # Errors
///
/// `Words` when the program doesn't take these arguments, or when they ask for help. `Value` when there are not 1
/// to 63 stages and at most 65,535 scans, or a value is no number.
pub fn request_of(alloc: Global, words: &[String]) -> Result<Pipeline, Stop> {
    let matches = command(alloc)?.try_get_matches_from(words)?;
    let stages = number_of(&matches, "stages", 4).ok_or(STAGES)?;
    let items = number_of(&matches, "items", 20_000).ok_or(ITEMS)?;
    let looks = number_of(&matches, "looks", 1_000).ok_or(LOOKS)?;
    if stages < 1 || stages > 63 {
        return Err(STAGES);
    }
    if looks > 65_535 {
        return Err(LOOKS);
    }
    Ok(Pipeline {
        stages: stages as u32,
        items,
        looks: looks as usize,
        options: Options::default(),
    })
}
