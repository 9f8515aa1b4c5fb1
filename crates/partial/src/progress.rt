//! That long work goes on, on the standard error of a terminal.

use crate::execute_request;
use crate::request::Request;
use crate::stop::Stop;
use partial_cmd::Verdict;
use std::io::Eprint;
use std::rt::Files;
use std::sync::Wait;
use std::sync::atomic::{AtomicBool, Ordering};
use std::thread;
use std::thread::{Builder, Parker, Threads};
use std::time::{Clock, Duration};

/// How far the work is. It begins when a plan was read, so the time spent waiting for a terminal isn't counted.
#[derive(Drop)]
pub struct Progress {
    has_begun: AtomicBool,
    is_over: AtomicBool,
    /// Where the thread that shows the time waits for the begin.
    begin: Parker,
    /// Where it waits for the end.
    end: Parker,
}

impl Progress {
    /// Makes the progress of work that hasn't begun.
    pub fn new() -> Progress {
        Progress {
            has_begun: AtomicBool::new(false),
            is_over: AtomicBool::new(false),
            begin: Parker::new(),
            end: Parker::new(),
        }
    }

    /// Says that a plan was read.
    pub fn begin(&self) {
        self.has_begun.store(true, Ordering::SeqCst);
        self.begin.unpark();
    }

    /// Says that the work is over.
    fn finish(&self) {
        self.is_over.store(true, Ordering::SeqCst);
        self.end.unpark();
        self.begin();
    }

    /// Waits until the work has begun, or is over.
    fn await_begin<R: Wait>(&self, rt: &R) {
        for _ in rt.forever() {
            if self.has_begun.load(Ordering::SeqCst) {
                break;
            }
            self.begin.park(rt);
        }
    }

    /// Writes for how many seconds the work goes on, after 1, 2, 4 and so on, until it is over.
    fn show_time<R: Eprint + Wait + Clock>(&self, rt: &R) {
        self.await_begin(rt);
        let mut seconds = 1u64;
        for _ in 0..32 {
            self.end
                .park_timeout(rt, Duration::from_secs(seconds - seconds / 2));
            if self.is_over.load(Ordering::SeqCst) {
                break;
            }
            let _unwritten = eprintln!(rt; "partial: at work for {seconds} s");
            seconds = seconds.saturating_mul(2);
        }
    }
}

/// Does what a request asks for. Meanwhile another thread says for how long the work goes on, if one can be
/// started.
pub fn show_progress<
    R: Files + Input + Print + Eprint + AllocGlobal + Threads + Wait + Clock + Sync,
>(rt: &R, progress: &Progress, request: &Request<'_>) -> Result<Verdict, Stop> {
    thread::scope(thread::scope_env(), rt, |scope| {
        let _line = Builder::new().spawn_scoped(scope, || progress.show_time(rt));
        let verdict = execute_request(rt, progress, request);
        progress.finish();
        verdict
    })
}
