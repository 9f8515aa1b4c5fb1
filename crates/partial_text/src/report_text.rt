//! The text of a report, given to a writer.

ghost use Rattle.partial_text.specs.ReportText.{answer_line, answer_lines, port_lines, report_text};
ghost use Rattle.partial_text.specs.Inner.TextGiven.{GivesBytes, text_given};

use crate::device::Device;
use crate::gathered::Gathered;
use crate::outcome_text::{
    tell_answer_back, tell_answer_front, tell_field, tell_number, tell_values,
};
use crate::report::RunReport;
use partial_model::Answer;
use std::io::Write;

/// Writes the line of an answered call.
#[tactic(auto, using(crate::proofs::TextGiven::tellings))]
fn tell_answer_line<W: Write>(
    text: &mut Gathered,
    out: &mut Device<W>,
    port: usize,
    number: usize,
    answer: &Answer,
)
    ensures { GivesBytes (text_given W.contents text.old out.old) (answer_line port number answer.now)
        (text_given W.contents text.new out.new) }
{
    tell_field(text, out, b"call ", port as u64);
    tell_number(text, out, number as u64);
    tell_answer_front(text, out, answer);
    tell_answer_back(text, out, answer);
    text.tell(out, b"\n");
}

/// Writes the lines of a port.
fn tell_answers<W: Write>(text: &mut Gathered, out: &mut Device<W>, port: usize, answers: &[Answer])
    ensures { GivesBytes (text_given W.contents text.old out.old) (answer_lines port 0 answers.now)
        (text_given W.contents text.new out.new) }
{
    for (number, answer) in answers.iter().enumerate() {
        tell_answer_line(text, out, port, number, answer);
    }
}

/// Writes the lines of the ports.
fn tell_ports<W: Write>(text: &mut Gathered, out: &mut Device<W>, ports: &[Vec<Answer>])
    ensures { GivesBytes (text_given W.contents text.old out.old) (port_lines 0 ports.now)
        (text_given W.contents text.new out.new) }
{
    for (port, answers) in ports.iter().enumerate() {
        tell_answers(text, out, port, answers);
    }
}

/// Writes the text of a report.
#[tactic(auto, using(crate::proofs::TextGiven::tellings))]
pub(crate) fn tell_report<W: Write>(text: &mut Gathered, out: &mut Device<W>, report: &RunReport)
    ensures { GivesBytes (text_given W.contents text.old out.old)
        (report_text report.now.answers.items report.now.values.items)
        (text_given W.contents text.new out.new) }
{
    tell_ports(text, out, &report.answers);
    tell_values(text, out, &report.values);
}
