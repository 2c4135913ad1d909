// An almanac of any format, read line by line.
ghost use Rattle.std.specs.Prelude.{◌≡◌, ◌++◌, ◌∷◌, [], List, Err, IfOk, IfErr};
ghost use Rattle.raim_model.specs.declared.Span.{Span};
ghost use Rattle.raim_model.specs.declared.TextFault.{TextFault};
ghost use Rattle.raim_model.specs.Span.{IsFlight};
ghost use Rattle.raim_model.specs.AlmanacRanges.{AreRecords};
ghost use Rattle.text_lines.specs.Lines.{Text, lines_of};
ghost use Rattle.text_lines.specs.Reading.{RefusesLine, Refuses};
ghost use Rattle.text_lines.specs.Readers.{Pass};
ghost use Rattle.text_lines.specs.Refusals.{IsRefused};
ghost use Rattle.almanac_draft.specs.Lines.{almanac_records};
ghost use Rattle.almanac_draft.specs.Answers.{SayRecords};
ghost use Rattle.almanac_draft.specs.Readers.{HasTaken, fault_of};

use crate::draft::AlmanacDraft;
use crate::line::AlmanacLine;
use raim_model::{AlmRecord, OutOfMemory, Refusal, Span, TextFault};
use std::alloc::Global;
use text_lines::{LineReader, read_lines};

/// Reads an almanac for a flight, fed one line at a time. It keeps the first fault.
#[derive(Drop)]
pub struct FormReader<L> {
    pub(crate) lines: LineReader<AlmanacDraft<L>>,
}

impl<L: AlmanacLine> FormReader<L> {
    /// A reader that was fed no line, with room for 32 records. Nothing else here takes memory.
    pub fn new(alloc: Global, span: Span) -> Result<FormReader<L>, OutOfMemory>
        requires { IsFlight span }
        ensures { IfOk result (λ reader. HasTaken L.form span reader []) }
    {
        match AlmanacDraft::<L>::new(alloc, span) {
            Ok(draft) => {
                let lines = LineReader::new(draft);
                Ok(FormReader { lines })
            }
            Err(_) => Err(OutOfMemory),
        }
    }

    /// Takes the next line. A reader that has met a fault answers that fault for ever.
    pub fn feed_line(&mut self, line: &[u8]) -> Result<(), TextFault>
        ensures taken { (span : Span) (lines : List Text) → HasTaken L.form span self.old lines → HasTaken L.form span self.new (lines ++ line.now ∷ []) }
        ensures passes { IfOk result (λ _. (span : Span) (lines : List Text) → HasTaken L.form span self.old lines → Pass (almanac_records L.form span) (lines ++ line.now ∷ [])) }
        ensures refused { IfErr result (λ f. (span : Span) (lines : List Text) → HasTaken L.form span self.old lines → RefusesLine (almanac_records L.form span) (lines ++ line.now ∷ []) f.line f.why) }
        ensures kept { IfErr result (λ f. fault_of self.new ≡ Some f) }
        ensures repeats { (f : TextFault) → fault_of self.old ≡ Some f → result ≡ Err f }
    {
        match self.lines.feed_line(line) {
            Ok(()) => Ok(()),
            Err(fault) => Err(fault),
        }
    }

    /// The records by rising PRN, or the first fault.
    pub fn finish(self) -> Result<Vec<AlmRecord>, TextFault>
        ensures accepted { IfOk result (λ v. (span : Span) (lines : List Text) → HasTaken L.form span self lines → SayRecords L.form span lines v.items) }
        ensures ranges { IfOk result (λ v. (span : Span) (lines : List Text) → IsFlight span → HasTaken L.form span self lines → AreRecords span v.items) }
        ensures refused { IfErr result (λ f. (span : Span) (lines : List Text) → HasTaken L.form span self lines → Refuses (almanac_records L.form span) lines f.line f.why) }
        ensures repeats { (f : TextFault) → fault_of self ≡ Some f → result ≡ Err f }
    {
        match self.lines.finish() {
            Ok(records) => Ok(records),
            Err(fault) => Err(fault),
        }
    }
}

/// Reads an almanac for a flight: its records by rising PRN, with canonical decimals, angles in
/// radians, and the time of applicability in milliseconds since the GPS epoch.
///
/// The week is resolved against the week of the flight's first millisecond, and the time of
/// applicability lies within 90 days of the flight's first millisecond and of its end. A refusal names
/// the line and the first test that refuses it: `Label`, `Number`, `Range`, `PrnTwice`, or `Short` at
/// the end of the file, with the last line that is not blank.
pub fn read_form<L: AlmanacLine>(
    alloc: Global,
    text: &[u8],
    span: Span,
) -> Result<Vec<AlmRecord>, Refusal>
    requires { IsFlight span }
    ensures accepted { IfOk result (λ v. SayRecords L.form span (lines_of text.now) v.items) }
    ensures ranges { IfOk result (λ v. AreRecords span v.items) }
    ensures refused { IfErr result (IsRefused (almanac_records L.form span) (lines_of text.now)) }
{
    let Ok(draft) = AlmanacDraft::<L>::new(alloc, span) else {
        return Err(Refusal::Memory);
    };
    match read_lines(text, draft) {
        Ok(records) => Ok(records),
        Err(fault) => Err(Refusal::Text(fault)),
    }
}
