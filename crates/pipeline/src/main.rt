//! The program `pipeline`: it runs a pipeline of stages in threads, and shows its counts as they grow.
#![tactic(auto)]

mod request;
mod screen;
mod stop;

use partial_pipeline::{NoWork, PipelineReport, StageEnd, run_pipeline};
use request::request_of;
use screen::{Screen, Terminal};
use std::env;
use std::env::Env;
use std::io::IsTerminal;
use std::process::ExitCode;
use std::sync::Wait;
use std::thread::Threads;
use std::time::Clock;
use stop::Stop;

fn main(rt: HostRuntime) -> ExitCode {
    match run(&rt, rt.stdout().is_terminal()) {
        Ok(()) => ExitCode::SUCCESS,
        Err(stop) => {
            let _unwritten = match &stop {
                Stop::Words(error) => error.print(&rt),
                _ => eprintln!(rt; "pipeline: {stop}"),
            };
            ExitCode::from(stop.status())
        }
    }
}

/// Runs the pipeline that the program's arguments ask for, and writes its counts.
fn run<R: Env + Clock + Print + AllocGlobal + Threads + Wait + Sync>(
    rt: &R,
    is_terminal: bool,
) -> Result<(), Stop> {
    let words: Vec<String> = env::args(rt)?.collect(rt.alloc())?;
    let pipeline = request_of(rt.alloc(), &words)?;
    let terminal = is_terminal.then(|| Terminal::of(rt));
    let mut screen = Screen::new(rt, terminal, pipeline.items);
    let report = run_pipeline(rt, rt.alloc(), pipeline, &NoWork, &mut screen)?;
    screen.end(&report.counts)?;
    judge(&report)
}

/// Judges the end. A stage that didn't reach the last item ended since the memory's epochs were used up, or after one
/// that did.
fn judge(report: &PipelineReport) -> Result<(), Stop> {
    match report.ends.iter().all(|end| *end == StageEnd::Finished) {
        true => Ok(()),
        false => Err(Stop::EpochsSpent),
    }
}
