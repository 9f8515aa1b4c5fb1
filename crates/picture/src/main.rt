//! The program `picture`: it draws the replay of a plan.
#![tactic(auto)]

mod request;
mod stop;
mod watched;

use partial_picture::{Fault, draw};
use partial_replay::{Device, PlanError};
use request::{Request, request_of};
use std::env::Env;
use std::io::Read;
use std::process::ExitCode;
use std::rt::Files;
use std::{env, fs, io};
use stop::Stop;
use watched::Watched;

fn main(rt: HostRuntime) -> ExitCode {
    match run(&rt) {
        Ok(()) => ExitCode::SUCCESS,
        Err(stop) => {
            let _unwritten = match &stop {
                Stop::Words(error) => error.print(&rt),
                _ => eprintln!(rt; "picture: {stop}"),
            };
            ExitCode::from(stop.status())
        }
    }
}

/// Draws what the program's arguments ask for.
fn run<R: Env + Files + Input + Print + AllocGlobal>(rt: &R) -> Result<(), Stop> {
    let words: Vec<String> = env::args(rt)?.collect(rt.alloc())?;
    let request = request_of(rt.alloc(), &words)?;
    match request.plan {
        None => draw_on(rt, &request, rt.reader()),
        Some(path) => {
            let file = fs::open(rt, path).map_err(|_| Stop::from(Fault::Plan(PlanError::Read)))?;
            draw_on(rt, &request, file)
        }
    }
}

/// Draws the replay of a plan from a reader. The text is whole before its first byte is written to standard
/// output.
fn draw_on<R: Print + AllocGlobal, D: Read + Drop>(
    rt: &R,
    request: &Request<'_>,
    reader: D,
) -> Result<(), Stop> {
    let mut plan = Device::new(Watched::new(reader));
    let mut out = Device::new(io::writer(rt));
    match draw(
        rt.alloc(),
        request.form,
        request.window,
        &mut plan,
        &mut out,
    ) {
        Ok(()) => Ok(()),
        Err(fault) => Err(Stop::of_plan(fault, plan.into_inner().has_return())),
    }
}
