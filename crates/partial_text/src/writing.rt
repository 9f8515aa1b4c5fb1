//! Writing an outcome, a report, or two reports.

ghost use Rattle.std.specs.Prelude.{◌≡◌, ◌≤◌, ◌↔◌, ℕ, ◌++◌, true, false, length, take, OnOk, OnErr, IfOk, IsErrOf};
ghost use Rattle.partial_text.specs.OutcomeText.{outcome_text};
ghost use Rattle.partial_text.specs.Replayed.{calls_in_order};
ghost use Rattle.partial_text.specs.ReportText.{report_text};
ghost use Rattle.std.specs.Io.KnownBytes.{Appends};

use crate::device::Device;
use crate::fault::OutcomeError;
use crate::gathered::Gathered;
use crate::outcome::Outcome;
use crate::outcome_text::{final_values, tell_outcome, tell_replayed};
use crate::replayed::Replayed;
use crate::report::RunReport;
use crate::report_text::tell_report;
use std::alloc::Global;
use std::io::Write;

/// Writes the text, by as many writes as it needs.
///
/// # Errors
///
/// `Write` when a write fails or takes 0 bytes. A part of the text from its front has been written then.
pub fn write_text<W: Write>(text: &[u8], writer: &mut Device<W>) -> Result<(), OutcomeError>
    requires { writer.old.failed ≡ false }
    ensures ok { OnOk result
        (Appends (W.contents writer.old.inner) (W.contents writer.new.inner) text.now) }
    ensures part { OnErr result ((n : ℕ)
        × Appends (W.contents writer.old.inner) (W.contents writer.new.inner) (take n text.now)) }
    ensures fault { IsErrOf result OutcomeError.Write ↔ (writer.new.failed ≡ true) }
    ensures memory { IsErrOf result OutcomeError.OutOfMemory → ⊥ }
{
    let mut rest = text;
    while !rest.is_empty() {
        let Some(count) = writer.write(rest) else {
            return Err(OutcomeError::Write);
        };
        rest = &rest[count..];
    }
    Ok(())
}

/// Writes the text of an outcome: its history, its calls with their answers, places and spans, the values
/// of the components after the history, and the number of steps.
///
/// # Errors
///
/// `OutOfMemory` when an allocation was refused: nothing was written. `Write` when a write fails or takes 0
/// bytes: a part of the text from its front has been written.
pub fn write_outcome<W: Write>(
    alloc: Global,
    outcome: &Outcome,
    writer: &mut Device<W>,
) -> Result<(), OutcomeError>
    requires { writer.old.failed ≡ false }
    ensures ok { OnOk result (Appends (W.contents writer.old.inner) (W.contents writer.new.inner)
        (outcome_text outcome.now.opening outcome.now.history.items outcome.now.calls.items
        outcome.now.steps)) }
    ensures part { OnErr result ((n : ℕ)
        × Appends (W.contents writer.old.inner) (W.contents writer.new.inner)
        (take n (outcome_text outcome.now.opening outcome.now.history.items
        outcome.now.calls.items outcome.now.steps))) }
    ensures fault { IsErrOf result OutcomeError.Write ↔ (writer.new.failed ≡ true) }
    ensures memory { IsErrOf result OutcomeError.OutOfMemory → writer.new ≡ writer.old }
{
    let values = final_values(alloc, &outcome.opening, &outcome.history)?;
    let mut text = Gathered::new(alloc)?;
    tell_outcome(&mut text, writer, outcome, &values);
    text.end(writer)
}

/// Writes the text of what a replay has made: that of its outcome, as [`write_outcome`] writes it.
///
/// # Errors
///
/// As those of [`write_outcome`].
pub fn write_replayed<W: Write>(
    alloc: Global,
    replayed: &Replayed,
    writer: &mut Device<W>,
) -> Result<(), OutcomeError>
    requires { writer.old.failed ≡ false }
    ensures ok { OnOk result (Appends (W.contents writer.old.inner) (W.contents writer.new.inner)
        (outcome_text replayed.now.opening replayed.now.history.items
        (calls_in_order replayed.now.calls.items) replayed.now.steps)) }
    ensures part { OnErr result ((n : ℕ)
        × Appends (W.contents writer.old.inner) (W.contents writer.new.inner)
        (take n (outcome_text replayed.now.opening replayed.now.history.items
        (calls_in_order replayed.now.calls.items) replayed.now.steps))) }
    ensures fault { IsErrOf result OutcomeError.Write ↔ (writer.new.failed ≡ true) }
    ensures memory { IsErrOf result OutcomeError.OutOfMemory → writer.new ≡ writer.old }
{
    let values = final_values(alloc, &replayed.opening, &replayed.history)?;
    let mut text = Gathered::new(alloc)?;
    tell_replayed(&mut text, writer, replayed, &values);
    text.end(writer)
}

/// Writes the text of a report: the answers of each port's calls, and the values of the components at the
/// end.
///
/// # Errors
///
/// `OutOfMemory` when an allocation was refused: nothing was written. `Write` when a write fails or takes 0
/// bytes: a part of the text from its front has been written.
pub fn write_report<W: Write>(
    alloc: Global,
    report: &RunReport,
    writer: &mut Device<W>,
) -> Result<(), OutcomeError>
    requires { writer.old.failed ≡ false }
    ensures ok { OnOk result (Appends (W.contents writer.old.inner) (W.contents writer.new.inner)
        (report_text report.now.answers.items report.now.values.items)) }
    ensures part { OnErr result ((n : ℕ)
        × Appends (W.contents writer.old.inner) (W.contents writer.new.inner)
        (take n (report_text report.now.answers.items report.now.values.items))) }
    ensures fault { IsErrOf result OutcomeError.Write ↔ (writer.new.failed ≡ true) }
    ensures memory { IsErrOf result OutcomeError.OutOfMemory → writer.new ≡ writer.old }
{
    let mut text = Gathered::new(alloc)?;
    tell_report(&mut text, writer, report);
    text.end(writer)
}

/// Writes the texts of both reports, the first one first.
///
/// # Errors
///
/// `OutOfMemory` when an allocation was refused: nothing was written, not even of the first report. `Write` when
/// a write fails or takes 0 bytes: a part of the text of both from its front has been written.
pub fn write_reports<W: Write>(
    alloc: Global,
    first: &RunReport,
    second: &RunReport,
    writer: &mut Device<W>,
) -> Result<(), OutcomeError>
    requires { writer.old.failed ≡ false }
    ensures ok { OnOk result (Appends (W.contents writer.old.inner) (W.contents writer.new.inner)
        (report_text first.now.answers.items first.now.values.items
        ++ report_text second.now.answers.items second.now.values.items)) }
    ensures part { OnErr result ((n : ℕ)
        × Appends (W.contents writer.old.inner) (W.contents writer.new.inner)
        (take n (report_text first.now.answers.items first.now.values.items
        ++ report_text second.now.answers.items second.now.values.items))) }
    ensures fault { IsErrOf result OutcomeError.Write ↔ (writer.new.failed ≡ true) }
    ensures memory { IsErrOf result OutcomeError.OutOfMemory → writer.new ≡ writer.old }
{
    let mut text = Gathered::new(alloc)?;
    tell_report(&mut text, writer, first);
    tell_report(&mut text, writer, second);
    text.end(writer)
}
