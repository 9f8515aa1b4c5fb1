//! What the program shows of its pipeline.

use crate::stop::Stop;
use partial_pipeline::Watch;
use std::env::Env;
use std::time::{Clock, Duration};
use std::{env, io, thread};

/// The greatest length of a bar.
const WIDTH: u64 = 48;

/// The size of a terminal whose environment names none.
const USUAL: Terminal = Terminal {
    columns: 80,
    lines: 24,
};

/// How many milliseconds the monitor rests after each scan.
const REST: u64 = 2;

/// The size of a terminal.
#[derive(Clone, Copy, Debug, PartialEq, Eq)]
pub struct Terminal {
    columns: u64,
    lines: usize,
}

impl Terminal {
    /// The size that the environment names (`COLUMNS` and `LINES`), which is that of the start.
    pub fn of<R: Env + AllocGlobal>(rt: &R) -> Terminal {
        Terminal {
            columns: number_of(rt, "COLUMNS").unwrap_or(USUAL.columns),
            lines: number_of(rt, "LINES").map_or(USUAL.lines, |lines| lines as usize),
        }
    }

    // The greatest length of a bar beside the numbers of so many items. It is 0 where these have no room.
    fn room(self, items: u64) -> u64 {
        let numbers = digits_of(items).saturating_mul(2).saturating_add(10);
        self.columns.saturating_sub(numbers).min(WIDTH)
    }
}

// The number that a variable of the environment has.
fn number_of<R: Env + AllocGlobal>(rt: &R, name: &str) -> Option<u64> {
    let text = env::var(rt, name).ok()?;
    text.parse().ok()
}

// How many digits a number has.
fn digits_of(number: u64) -> u64 {
    let mut left = number;
    let mut digits = 1;
    for more in 2..=20 {
        left /= 10;
        if left > 0 {
            digits = more;
        }
    }
    digits
}

/// Shows each scan in which a count has changed: on a terminal as a bar for each stage, redrawn in place,
/// otherwise as a line of all counts. Both also show by how much each stage is less far than the one before it.
#[derive(Drop)]
pub struct Screen<'a, R: Print + Clock> {
    rt: &'a R,
    /// Where bars are drawn, if they are.
    terminal: Option<Terminal>,
    items: u64,
    /// The sum of the counts that were shown last.
    shown: Option<u64>,
    is_written: bool,
}

impl<'a, R: Print + Clock> Screen<'a, R> {
    /// Makes a screen for counts of so many items. On a terminal that is too small for bars it writes lines.
    pub fn new(rt: &'a R, terminal: Option<Terminal>, items: u64) -> Screen<'a, R> {
        Screen {
            rt,
            terminal: terminal.filter(|it| it.lines > 2 && it.room(items) > 0),
            items,
            shown: None,
            is_written: true,
        }
    }

    /// Shows the counts at the end.
    ///
    /// # Errors
    ///
    /// `Write` when these counts or earlier ones couldn't be written.
    pub fn end(&mut self, counts: &[u64]) -> Result<(), Stop> {
        if let Some(terminal) = self.terminal {
            self.draw(terminal, counts).map_err(|_| Stop::Write)?;
        }
        self.line("last", counts).map_err(|_| Stop::Write)?;
        match self.is_written {
            true => Ok(()),
            false => Err(Stop::Write),
        }
    }

    // Writes a line of all counts, and of how many each stage but the first lacks to the one before it.
    fn line(&self, name: &str, counts: &[u64]) -> io::Result<()> {
        print!(self.rt; "{name}")?;
        for count in counts {
            print!(self.rt; " {count}")?;
        }
        print!(self.rt; " lag")?;
        for (before, own) in counts.iter().zip(counts.iter().skip(1)) {
            print!(self.rt; " {}", before.saturating_sub(*own))?;
        }
        println!(self.rt;)
    }

    // Draws a bar for each stage with its count and its lag, over those that were drawn before. Stages for which the
    // terminal has no line are counted in its last one.
    fn draw(&self, terminal: Terminal, counts: &[u64]) -> io::Result<()> {
        let lines = terminal.lines.saturating_sub(1);
        let drawn = match counts.len() <= lines {
            true => counts.len(),
            false => lines.saturating_sub(1),
        };
        if self.shown.is_some() {
            print!(self.rt; "\x1b[{}A", counts.len().min(lines))?;
        }
        let mut before = counts.first().copied().unwrap_or(0);
        for (stage, count) in counts.iter().take(drawn).enumerate() {
            self.bar(terminal, stage, *count, before.saturating_sub(*count))?;
            before = *count;
        }
        if drawn < counts.len() {
            println!(self.rt; "\x1b[2K   and {} more", counts.len() - drawn)?;
        }
        Ok(())
    }

    // Draws the bar of a stage.
    fn bar(&self, terminal: Terminal, stage: usize, count: u64, lag: u64) -> io::Result<()> {
        let room = terminal.room(self.items);
        let length = u128::from(count) * u128::from(room) / u128::from(self.items.max(1));
        print!(self.rt; "\x1b[2K{stage:>2} ")?;
        for _mark in 0..length.min(u128::from(room)) {
            print!(self.rt; "#")?;
        }
        println!(self.rt; " {count} lag {lag}")
    }
}

impl<R: Print + Clock> Watch for Screen<'_, R> {
    fn see(&mut self, counts: &[u64]) {
        let sum = counts
            .iter()
            .fold(0u64, |sum, count| sum.saturating_add(*count));
        if self.shown != Some(sum) && self.is_written {
            let written = match self.terminal {
                Some(terminal) => self.draw(terminal, counts),
                None => self.line("counts", counts),
            };
            self.is_written = written.is_ok();
            self.shown = Some(sum);
        }
        thread::sleep(self.rt, Duration::from_millis(REST));
    }
}
