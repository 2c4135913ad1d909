// The lines of a file of messages in their order.
ghost use Rattle.std.specs.Prelude.{◌≤◌, length, All, IfOk, IfErr};
ghost use Rattle.notice_model.specs.Notices.{IsWellFormed};
ghost use Rattle.text_lines.specs.Lines.{lines_of};
ghost use Rattle.text_lines.specs.Refusals.{IsRefused};
ghost use Rattle.nanu_text.specs.Nanus.{nanu_lines};
ghost use Rattle.nanu_text.specs.Answers.{SayNotices};

use crate::draft::Draft;
use notice_model::Notice;
use raim_model::Refusal;
use std::alloc::Global;
use text_lines::read_lines;

// What `read_nanus` answers, by the lines.
fn lines(alloc: Global, text: &[u8]) -> Result<Vec<Notice>, Refusal>
    ensures accepted { IfOk result (λ v. SayNotices (lines_of text.now) v.items) }
    ensures refused { IfErr result (IsRefused nanu_lines (lines_of text.now)) }
    ensures formed { IfOk result (λ v. All IsWellFormed v.items) }
{
    match read_lines(text, Draft::new(alloc)) {
        Ok(Some(notices)) => Ok(notices),
        Ok(None) => Err(Refusal::Memory),
        Err(fault) => Err(Refusal::Text(fault)),
    }
}

/// Reads a file of messages: six lines `label: value` each, with the labels `NANU TYPE`, `NANU NUMBER`,
/// `REFERENCE`, `PRN`, `START` and `STOP`.
///
/// A refusal names the line and the first test that refuses it: `Label`, `Word` for a value of no form,
/// `Time`, `Range`, `EmptySpan`; at the end of the file, with the last line that is not blank, `Short`.
pub fn read_nanus(alloc: Global, text: &[u8]) -> Result<Vec<Notice>, Refusal>
    ensures accepted { IfOk result (λ v. SayNotices (lines_of text.now) v.items) }
    ensures refused { IfErr result (IsRefused nanu_lines (lines_of text.now)) }
    ensures formed { IfOk result (λ v. All IsWellFormed v.items) }
    ensures few { IfOk result (λ v. length v.items ≤ length text.now) }
{
    lines(alloc, text)
}
