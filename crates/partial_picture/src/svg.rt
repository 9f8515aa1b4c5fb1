//! The drawing of a picture in SVG.

ghost use Rattle.std.specs.Prelude.{◌<◌, IfOk};
ghost use Rattle.std.specs.String.{string_len};

use crate::entries::Label;
use crate::layout::{Layout, Sides};
use crate::legend::{STYLE, push_legend};
use crate::picture::{Arrow, ArrowKind, Bar, Mark, Picture, Pin, Shape};
use crate::pixels::Pixels;
use crate::text::{fitted, push_escaped};
use crate::words::{call_words, entry_words, finish_words, step_words, word_words};
use std::alloc::{AllocError, Global};

/// Writes words at a place.
pub(crate) fn push_words(
    text: &mut String,
    class: &str,
    x: Pixels,
    y: Pixels,
    words: &str,
) -> Result<(), AllocError> {
    write!(text, "<text class=\"{class}\" x=\"{x}\" y=\"{y}\">")?;
    push_escaped(text, words)?;
    text.push_str("</text>\n")
}

/// Writes the words that a reader sees when he points at a shape, and the end of the shape.
fn push_title(text: &mut String, words: &str, end: &str) -> Result<(), AllocError> {
    text.push_str("<title>")?;
    push_escaped(text, words)?;
    writeln!(text, "</title></{end}>")
}

/// Writes a vertical or a horizontal line.
fn push_line(
    text: &mut String,
    class: &str,
    (x1, y1): (Pixels, Pixels),
    (x2, y2): (Pixels, Pixels),
) -> Result<(), AllocError> {
    writeln!(
        text,
        "<line class=\"{class}\" x1=\"{x1}\" y1=\"{y1}\" x2=\"{x2}\" y2=\"{y2}\"/>"
    )
}

/// Writes the shape of a mark around a place, as a symbol without its words and its end.
pub(crate) fn push_shape(
    text: &mut String,
    shape: Shape,
    x: Pixels,
    y: Pixels,
) -> Result<&'static str, AllocError> {
    let (left, right, top, bottom) = (x - 7, x + 7, y - 7, y + 7);
    match shape {
        Shape::Load => {
            write!(
                text,
                "<circle class=\"mark load\" cx=\"{x}\" cy=\"{y}\" r=\"5\">"
            )?;
            Ok("circle")
        }
        Shape::Store => {
            let (x, y) = (x - 5, y - 5);
            write!(
                text,
                "<rect class=\"mark store\" x=\"{x}\" y=\"{y}\" width=\"10\" height=\"10\">"
            )?;
            Ok("rect")
        }
        Shape::Won | Shape::Lost => {
            let class = if shape == Shape::Won { "won" } else { "lost" };
            write!(
                text,
                "<polygon class=\"mark exchange {class}\" points=\"{x},{top} {right},{y} "
            )?;
            write!(text, "{x},{bottom} {left},{y}\">")?;
            Ok("polygon")
        }
        Shape::Add => {
            let base = y + 5;
            write!(
                text,
                "<polygon class=\"mark add\" points=\"{x},{top} {right},{base} {left},{base}\">"
            )?;
            Ok("polygon")
        }
    }
}

/// Writes the axis: numbers of steps, each with a line through its step.
fn push_axis(text: &mut String, picture: &Picture<'_>, layout: &Layout) -> Result<(), AllocError> {
    let every = if picture.marks.len() > 120 { 10 } else { 5 };
    push_words(text, "name", Pixels(8), Pixels(16), "step")?;
    for mark in 0..picture.marks.len() {
        let step = picture.window.first.saturating_add(mark);
        if step % every == 0 {
            let x = layout.middle(mark);
            push_line(text, "grid", (x, Pixels(22)), (x, layout.bottom()))?;
            writeln!(
                text,
                "<text class=\"number\" x=\"{x}\" y=\"16\">{step}</text>"
            )?;
        }
    }
    Ok(())
}

/// Writes the lanes of the ports and the line of the history, with their names. The name of a port is
/// repeated after every fifty steps.
fn push_lanes(
    alloc: Global,
    text: &mut String,
    picture: &Picture<'_>,
    layout: &Layout,
) -> Result<(), AllocError> {
    let y = layout.history;
    push_words(text, "name", Pixels(8), y + 4, "history")?;
    push_line(text, "history", (layout.left(), y), (layout.right, y))?;
    for port in 0..picture.ports {
        let name = format!(in alloc; "port {port}")?;
        let y = layout.line(port);
        push_words(text, "name", Pixels(8), y + 4, &name)?;
        push_line(text, "lane", (layout.left(), y), (layout.right, y))?;
        for mark in (0..picture.marks.len()).skip(50).step_by(50) {
            push_words(text, "again", layout.edge(mark), y + 24, &name)?;
        }
    }
    Ok(())
}

/// Writes the torn side of a bar that the window cuts.
fn push_cut(text: &mut String, x: Pixels, y: Pixels) -> Result<(), AllocError> {
    writeln!(
        text,
        "<path class=\"cut\" d=\"M{x} {y}l3 4l-6 4l6 4l-6 4l6 4l-3 4\"/>"
    )
}

/// Writes the bar of a call, and its words as far as there is room.
fn push_bar(
    alloc: Global,
    text: &mut String,
    bar: &Bar<'_>,
    sides: &Sides,
    top: Pixels,
    room: Pixels,
) -> Result<(), AllocError> {
    let call = call_words(alloc, &bar.called.call)?;
    let finish = finish_words(alloc, bar.called)?;
    let class = match bar.called.finish {
        Some(_) => "bar",
        None => "bar unfinished",
    };
    let (x, y) = (sides.left, top + 34);
    let width = sides.right - sides.left.0;
    write!(
        text,
        "<rect class=\"{class}\" x=\"{x}\" y=\"{y}\" width=\"{width}\" height=\"24\" rx=\"5\">"
    )?;
    let port = bar.called.port;
    let number = bar.called.number;
    let steps = bar.called.steps;
    let title = format!(in alloc; "call {port} {number}: {call}: {finish} steps {steps}")?;
    push_title(text, &title, "rect")?;
    if !bar.begins {
        push_cut(text, x, y)?;
    }
    if !bar.ends {
        push_cut(text, sides.right, y)?;
    }
    push_words(text, "call", x, top + 15, &fitted(alloc, &call, room)?)?;
    push_words(text, "answer", x, top + 29, &fitted(alloc, &finish, room)?)
}

/// Writes the mark of a step.
fn push_mark(
    alloc: Global,
    text: &mut String,
    mark: &Mark,
    step: usize,
    x: Pixels,
    y: Pixels,
) -> Result<(), AllocError> {
    let end = push_shape(text, mark.shape, x, y)?;
    let port = mark.event.port;
    let words = step_words(alloc, &mark.event)?;
    let title = format!(in alloc; "step {step} of port {port}: {words}")?;
    push_title(text, &title, end)
}

/// Writes the arrow from one place to another, as a curve that is vertical at both ends.
fn push_arrow(
    alloc: Global,
    text: &mut String,
    arrow: &Arrow<'_>,
    (x1, y1): (Pixels, Pixels),
    (x2, y2): (Pixels, Pixels),
) -> Result<(), AllocError> {
    let (class, told) = match arrow.kind {
        ArrowKind::Overtook => ("overtook", "overtook"),
        ArrowKind::Lent => ("lent", "lent its view to"),
    };
    let (from, to) = if y1 < y2 {
        (y1 + 9, y2 - 14)
    } else {
        (y1 - 9, y2 + 14)
    };
    let bend = Pixels(from.0 / 2 + to.0 / 2);
    write!(
        text,
        "<path class=\"arrow {class}\" marker-end=\"url(#{class})\" "
    )?;
    write!(
        text,
        "d=\"M{x1} {from} C{x1} {bend} {x2} {bend} {x2} {to}\">"
    )?;
    let port = arrow.called.port;
    let number = arrow.called.number;
    let stamp = arrow.stamp;
    let title = format!(in alloc; "stamp {stamp} {told} call {port} {number}")?;
    push_title(text, &title, "path")
}

/// Writes an entry of the history, with a line down to the exchange that applied it.
fn push_pin(
    alloc: Global,
    text: &mut String,
    pin: &Pin,
    x: Pixels,
    layout: &Layout,
    label: &Label,
) -> Result<(), AllocError> {
    let y = layout.history;
    let line = layout.line(pin.entry.port as usize);
    push_line(text, "stem", (x, y + 6), (x, line - 8))?;
    write!(
        text,
        "<circle class=\"entry\" cx=\"{x}\" cy=\"{y}\" r=\"5\">"
    )?;
    push_title(text, &entry_words(alloc, pin.place, &pin.entry)?, "circle")?;
    let component = pin.entry.component;
    let value = pin.entry.value;
    let stamp = pin.entry.stamp;
    let above = format!(in alloc; "component {component} value {value}")?;
    let below = format!(in alloc; "stamp {stamp}")?;
    let (x, y) = (x - 4, y - label.raised());
    push_words(text, "call", x, y - 24, &fitted(alloc, &above, label.room)?)?;
    push_words(
        text,
        "answer",
        x,
        y - 10,
        &fitted(alloc, &below, label.room)?,
    )
}

/// Writes a row for each touched word, and an arrow from each mark to its word.
fn push_touched(
    alloc: Global,
    text: &mut String,
    picture: &Picture<'_>,
    layout: &Layout,
) -> Result<(), AllocError> {
    for (index, word) in picture.words.iter().enumerate() {
        let y = layout.row(index);
        let name = word_words(alloc, picture.sizes, *word)?;
        push_words(text, "name", Pixels(8), y + 4, &name)?;
        push_line(text, "row", (layout.left(), y), (layout.right, y))?;
    }
    for (index, mark) in picture.marks.iter().enumerate() {
        let Ok(row) = picture.words.binary_search(&mark.event.step.word()) else {
            continue;
        };
        let x = layout.middle(index);
        let y = layout.row(row);
        push_line(
            text,
            "touch",
            (x, layout.line(mark.event.port as usize) + 8),
            (x, y - 5),
        )?;
        writeln!(
            text,
            "<circle class=\"touched\" cx=\"{x}\" cy=\"{y}\" r=\"3\"/>"
        )?;
    }
    Ok(())
}

/// Writes the front of the drawing: its size, its colours and the heads of its arrows.
fn push_front(text: &mut String, layout: &Layout) -> Result<(), AllocError> {
    let width = layout.width;
    let height = layout.height;
    write!(
        text,
        "<svg xmlns=\"http://www.w3.org/2000/svg\" width=\"{width}\" height=\"{height}\" "
    )?;
    writeln!(
        text,
        "viewBox=\"0 0 {width} {height}\" role=\"img\" aria-label=\"the replay of a plan\">"
    )?;
    text.push_str(STYLE)?;
    writeln!(
        text,
        "<rect class=\"paper\" width=\"{width}\" height=\"{height}\"/>"
    )
}

/// Writes the bars of the calls.
fn push_bars(
    alloc: Global,
    text: &mut String,
    picture: &Picture<'_>,
    layout: &Layout,
) -> Result<(), AllocError> {
    for (index, (bar, sides)) in picture.bars.iter().zip(&layout.bars).enumerate() {
        let room = layout.room(&picture.bars, index);
        push_bar(
            alloc,
            text,
            bar,
            sides,
            layout.lane(bar.called.port as usize),
            room,
        )?;
    }
    Ok(())
}

/// Writes the entries of the history.
fn push_pins(
    alloc: Global,
    text: &mut String,
    picture: &Picture<'_>,
    layout: &Layout,
) -> Result<(), AllocError> {
    for (pin, label) in picture.pins.iter().zip(&layout.labels) {
        push_pin(alloc, text, pin, layout.middle(pin.mark), layout, label)?;
    }
    Ok(())
}

/// The place of a mark.
fn place_of(picture: &Picture<'_>, layout: &Layout, mark: usize) -> (Pixels, Pixels) {
    let port = picture
        .marks
        .get(mark)
        .map_or(0, |mark| mark.event.port as usize);
    (layout.middle(mark), layout.line(port))
}

// Appends the parts of a picture between its head and its legend.
fn push_parts(
    alloc: Global,
    text: &mut String,
    picture: &Picture<'_>,
    layout: &Layout,
    has_words: bool,
) -> Result<(), AllocError> {
    push_axis(text, picture, layout)?;
    push_lanes(alloc, text, picture, layout)?;
    push_bars(alloc, text, picture, layout)?;
    if has_words {
        push_touched(alloc, text, picture, layout)?;
    }
    push_pins(alloc, text, picture, layout)?;
    for arrow in &picture.arrows {
        let from = place_of(picture, layout, arrow.from);
        let to = place_of(picture, layout, arrow.to);
        push_arrow(alloc, text, arrow, from, to)?;
    }
    for (index, mark) in picture.marks.iter().enumerate() {
        let (x, y) = place_of(picture, layout, index);
        let step = picture.window.first.saturating_add(index);
        push_mark(alloc, text, mark, step, x, y)?;
    }
    Ok(())
}

/// Draws a picture in SVG. With `has_words` it also shows the words that each step touches.
///
/// # Errors
/// [`AllocError`] when an allocation was refused.
pub fn drawing(alloc: Global, picture: &Picture<'_>, has_words: bool) -> Result<String, AllocError>
    ensures some { IfOk result (λ text. 0 < string_len text) }
{
    let rows = if has_words { picture.words.len() } else { 0 };
    let layout = Layout::of(alloc, picture, rows)?;
    let mut text = String::new(alloc);
    push_front(&mut text, &layout)?;
    push_parts(alloc, &mut text, picture, &layout, has_words)?;
    push_legend(&mut text, layout.legend)?;
    text.push_str("</svg>\n")?;
    Ok(text)
}
