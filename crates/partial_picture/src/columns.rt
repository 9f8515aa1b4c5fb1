//! The text form of a picture, for terminals: a line for each step, and a column for each port.

ghost use Rattle.std.specs.Prelude.{◌<◌, ◌≤◌, IfOk, OnOk};
ghost use Rattle.std.specs.String.{string_len};

use crate::picture::{Bar, Mark, Picture, Pin};
use crate::window::Span;
use crate::words::{call_words, entry_words, finish_words, step_words};
use partial_model::Called;
use std::alloc::{AllocError, Global};

/// The remarks beside the steps: which call begins or ends there, and which entry is added.
#[derive(Drop)]
struct Remarks {
    /// The calls without a step before each mark and, last, after all marks. Each text is a line.
    between: Vec<String>,
    /// The remarks on each mark.
    beside: Vec<String>,
}

/// Makes so many empty texts.
fn blanks(alloc: Global, count: usize) -> Result<Vec<String>, AllocError> {
    let mut texts = Vec::with_capacity(alloc, count)?;
    for _text in 0..count {
        texts.push(String::new(alloc))?;
    }
    Ok(texts)
}

/// Appends words to the remarks at an index.
fn tell(texts: &mut [String], index: usize, words: &str) -> Result<(), AllocError> {
    if let Some(text) = texts.get_mut(index) {
        if !text.is_empty() {
            text.push_str("; ")?;
        }
        text.push_str(words)?;
    }
    Ok(())
}

/// Appends words about a call to the remarks at an index.
fn tell_call(
    alloc: Global,
    texts: &mut [String],
    index: usize,
    called: &Called,
    words: &str,
) -> Result<(), AllocError> {
    let port = called.port;
    let number = called.number;
    let remark = format!(in alloc; "call {port} {number}: {words}")?;
    tell(texts, index, &remark)
}

/// The words of a whole call: the call and its end.
fn whole_words(alloc: Global, called: &Called) -> Result<String, AllocError> {
    let call = call_words(alloc, &called.call)?;
    let finish = finish_words(alloc, called)?;
    format!(in alloc; "{call}: {finish}")
}

/// Adds the remarks on a call.
fn tell_bar(alloc: Global, remarks: &mut Remarks, bar: &Bar<'_>) -> Result<(), AllocError> {
    let called = bar.called;
    let Span { first, behind } = bar.marks;
    if bar.marks.is_empty() {
        let words = whole_words(alloc, called)?;
        return tell_call(alloc, &mut remarks.between, first, called, &words);
    }
    if bar.begins {
        let words = call_words(alloc, &called.call)?;
        tell_call(alloc, &mut remarks.beside, first, called, &words)?;
    }
    if bar.ends && called.finish.is_some() {
        let words = finish_words(alloc, called)?;
        let last = behind.saturating_sub(1);
        tell_call(alloc, &mut remarks.beside, last, called, &words)?;
    }
    Ok(())
}

/// Adds the remarks on the entries. The exchange that adds an entry is the last step of its call, and never
/// the first one.
fn tell_pins(alloc: Global, texts: &mut [String], pins: &[Pin]) -> Result<(), AllocError> {
    for pin in pins {
        tell(texts, pin.mark, &entry_words(alloc, pin.place, &pin.entry)?)?;
    }
    Ok(())
}

/// Collects the remarks of a picture.
fn remarks_of(alloc: Global, picture: &Picture<'_>) -> Result<Remarks, AllocError> {
    let marks = picture.marks.len();
    let mut between = blanks(alloc, marks)?;
    between.push(String::new(alloc))?;
    let mut beside = blanks(alloc, marks)?;
    tell_pins(alloc, &mut beside, &picture.pins)?;
    let mut remarks = Remarks { between, beside };
    for bar in &picture.bars {
        tell_bar(alloc, &mut remarks, bar)?;
    }
    Ok(remarks)
}

/// The words of each step.
fn cells_of(alloc: Global, marks: &[Mark]) -> Result<Vec<String>, AllocError> {
    let mut cells = Vec::with_capacity(alloc, marks.len())?;
    for mark in marks {
        cells.push(step_words(alloc, &mark.event)?)?;
    }
    Ok(cells)
}

/// The width of each port's column: that of its longest step or of its name.
fn widths_of(
    alloc: Global,
    ports: usize,
    marks: &[Mark],
    cells: &[String],
) -> Result<Vec<usize>, AllocError> {
    let mut widths = Vec::with_capacity(alloc, ports)?;
    for _port in 0..ports {
        widths.push("port 63".len())?;
    }
    for (mark, cell) in marks.iter().zip(cells) {
        if let Some(width) = widths.get_mut(mark.event.port as usize) {
            *width = cell.len().max(*width);
        }
    }
    Ok(widths)
}

/// Writes the words, then spaces up to the width and two more.
fn push_cell(line: &mut String, words: &str, width: usize) -> Result<(), AllocError> {
    line.push_str(words)?;
    for _space in words.len()..width {
        line.push(' ')?;
    }
    line.push_str("  ")
}

/// Writes a line without the spaces at its end.
fn push_line(text: &mut String, line: &str) -> Result<(), AllocError>
    ensures { OnOk result (string_len text.old < string_len text.new) }
{
    text.push_str(line.trim_end())?;
    text.push('\n')
}

/// The line with the names of the columns.
fn names(alloc: Global, widths: &[usize]) -> Result<String, AllocError> {
    let mut line = String::from_str(alloc, "  step  ")?;
    for (port, width) in widths.iter().enumerate() {
        let name = format!(in alloc; "port {port}")?;
        push_cell(&mut line, &name, *width)?;
    }
    Ok(line)
}

/// The line of a step.
fn line_of(
    alloc: Global,
    step: usize,
    mark: &Mark,
    widths: &[usize],
    cell: &str,
    remark: &str,
) -> Result<String, AllocError> {
    let mut line = format!(in alloc; "{step:>6}  ")?;
    for (port, width) in widths.iter().enumerate() {
        let words = if port == mark.event.port as usize {
            cell
        } else {
            ""
        };
        push_cell(&mut line, words, *width)?;
    }
    line.push_str(remark)?;
    Ok(line)
}

/// Writes the line of the calls between two steps, if there are any.
fn push_between(text: &mut String, words: &str) -> Result<(), AllocError>
    ensures { OnOk result (string_len text.old ≤ string_len text.new) }
{
    if words.is_empty() {
        return Ok(());
    }
    text.push_str("     -  ")?;
    push_line(text, words)
}

/// Writes the lines of the steps, each after the line of the calls without a step that come before it.
fn push_steps(
    alloc: Global,
    text: &mut String,
    picture: &Picture<'_>,
    cells: &[String],
    remarks: &Remarks,
) -> Result<(), AllocError>
    ensures { OnOk result (0 < string_len text.new) }
{
    let widths = widths_of(alloc, picture.ports, &picture.marks, cells)?;
    push_line(text, &names(alloc, &widths)?)?;
    let told = cells.iter().zip(&remarks.beside).zip(&remarks.between);
    for (index, (mark, ((cell, beside), between))) in picture.marks.iter().zip(told).enumerate() {
        push_between(text, between)?;
        let step = picture.window.first.saturating_add(index);
        push_line(text, &line_of(alloc, step, mark, &widths, cell, beside)?)?;
    }
    Ok(())
}

/// Draws a picture for terminals. Each step has a line with its number. The step is in the column of
/// its port, and after it what it begins, adds to the history and ends.
///
/// # Errors
/// [`AllocError`] when an allocation was refused.
pub fn table(alloc: Global, picture: &Picture<'_>) -> Result<String, AllocError>
    ensures some { IfOk result (λ text. 0 < string_len text) }
{
    let cells = cells_of(alloc, &picture.marks)?;
    let remarks = remarks_of(alloc, picture)?;
    let mut text = String::new(alloc);
    push_steps(alloc, &mut text, picture, &cells, &remarks)?;
    if let Some(last) = remarks.between.last() {
        push_between(&mut text, last)?;
    }
    Ok(text)
}
