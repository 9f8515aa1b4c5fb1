//! The command: it reads the text of a plan and writes the text of a picture.

ghost use Rattle.std.specs.Prelude.{◌≡◌, ◌≢◌, ◌↔◌, ◌<◌, ℕ, List, length, true, false, IfErr, IfOk, IfSome, IsErrOf, OnOk};
ghost use Rattle.std.specs.Io.KnownBytes.{Appends};
ghost use Rattle.std.specs.String.{string_len};
ghost use Rattle.partial_text.specs.Judging.{judged_plan};
ghost use Rattle.partial_picture.specs.Refusal.{IsDrawJudged, draw_reader_fault, draw_writer_fault};

use crate::columns::table;
use crate::fault::Fault;
use crate::picture::Picture;
use crate::svg::drawing;
use crate::window::Window;
use partial_replay::{Device, Plan, replay};
use partial_text::write_text;
use std::alloc::{AllocError, Global};
use std::io::{Read, Write};

/// The form in which a picture is written.
#[derive(Clone, Copy, Debug, PartialEq, Eq)]
pub enum Form {
    /// A drawing in SVG. With `has_words` it also shows the words that each step touches.
    Drawing { has_words: bool },
    /// Text for terminals.
    Table,
}

// The text of a picture.
fn text_of(alloc: Global, form: Form, picture: &Picture<'_>) -> Result<String, AllocError>
    ensures some { IfOk result (λ text. 0 < string_len text) }
{
    match form {
        Form::Drawing { has_words } => drawing(alloc, picture, has_words),
        Form::Table => table(alloc, picture),
    }
}

/// Reads a plan, replays it, and writes a picture of a window of the replay.
///
/// # Errors
///
/// The first fault of the text, when it isn't the text of a plan. Code 6 when an allocation was refused.
/// Code 11 when the reader failed, and code 12 when the writer failed or took 0 bytes. Code 15 or 16 when
/// the window can't be drawn. After code 12 a part of the text from its front has been written, after any
/// other error nothing.
pub fn draw<R: Read, W: Write>(
    alloc: Global,
    form: Form,
    window: Window,
    plan: &mut Device<R>,
    out: &mut Device<W>,
) -> Result<(), Fault>
    requires plan { plan.old.failed ≡ false }
    requires out { out.old.failed ≡ false }
    ensures read_fault { IsErrOf result draw_reader_fault ↔ (plan.new.failed ≡ true) }
    ensures write_fault { IsErrOf result draw_writer_fault ↔ (out.new.failed ≡ true) }
    // The fault is that of the plan, and a plan without a fault isn't refused for one.
    ensures plan { plan.new.failed ≡ false → IfSome (R.remaining plan.old.inner)
        (λ bytes. IsDrawJudged result (judged_plan bytes)) }
    // The text of a picture is written whole, and it isn't empty.
    ensures written { OnOk result ((text : List ℕ) × (0 < length text)
        × Appends (W.contents out.old.inner) (W.contents out.new.inner) text) }
    // Nothing is written, except after a fault of the writer.
    ensures unwritten { IfErr result (λ fault. fault ≢ draw_writer_fault → out.new ≡ out.old) }
{
    let plan = Plan::read(alloc, plan)?;
    let outcome = replay(alloc, &plan)?;
    let picture = Picture::of(alloc, plan.sizes(), plan.ports().len(), &outcome, window)?;
    let text = text_of(alloc, form, &picture)?;
    Ok(write_text(text.as_bytes(), out)?)
}
