// Lines are read one at a time.
ghost use Rattle.std.specs.Prelude.{◌≡◌, List, [], ◌∷◌, ◌++◌, Some, None, Err, IsOk, IfOk, IfErr};
ghost use Rattle.raim_model.specs.declared.TextFault.{TextFault};
ghost use Rattle.text_lines.specs.Lines.{Text, lines_of};
ghost use Rattle.text_lines.specs.Reading.{RefusesLine, Refuses};
ghost use Rattle.text_lines.specs.Readers.{Pass, Means, StandsFor};

use crate::{LineCount, LineDraft, next_line};
use raim_model::TextFault;

/// Reads lines of one format, fed one at a time. It counts them and keeps the first fault.
#[derive(Drop)]
pub struct LineReader<D> {
    pub(crate) draft: D,
    pub(crate) count: LineCount,
    pub(crate) fault: Option<TextFault>,
}

impl<D: LineDraft> LineReader<D> {
    /// A reader that was fed no line.
    pub fn new(draft: D) -> LineReader<D>
        requires { D.holds draft [] }
        ensures none { StandsFor D.format D.holds result [] }
        ensures same { D.format result.draft ≡ D.format draft }
    {
        LineReader {
            draft,
            count: LineCount::new(),
            fault: None,
        }
    }

    /// Takes the next line. A reader that has met a fault answers that fault for ever.
    pub fn feed_line(&mut self, line: &[u8]) -> Result<(), TextFault>
        ensures stands { (lines : List Text) → StandsFor D.format D.holds self.old lines → StandsFor D.format D.holds self.new (lines ++ line.now ∷ []) }
        ensures passes { IfOk result (λ _. (lines : List Text) → StandsFor D.format D.holds self.old lines → Pass (D.format self.old.draft) (lines ++ line.now ∷ [])) }
        ensures refused { IfErr result (λ f. (lines : List Text) → StandsFor D.format D.holds self.old lines → RefusesLine (D.format self.old.draft) (lines ++ line.now ∷ []) f.line f.why) }
        ensures kept { IfErr result (λ f. self.new.fault ≡ Some f) }
        ensures repeats { (f : TextFault) → self.old.fault ≡ Some f → result ≡ Err f }
        ensures same { D.format self.new.draft ≡ D.format self.old.draft }
    {
        if let Some(fault) = self.fault {
            return Err(fault);
        }
        match self.draft.take(line) {
            Ok(true) => {
                self.count.skip();
                Ok(())
            }
            Ok(false) => {
                self.count.pass();
                Ok(())
            }
            Err(why) => {
                let line = self.count.next();
                let fault = TextFault { line, why };
                self.fault = Some(fault);
                Err(fault)
            }
        }
    }

    /// What the lines say, or the first fault.
    pub fn finish(self) -> Result<D::Value, TextFault>
        ensures accepted { IfOk result (λ value. (lines : List Text) → StandsFor D.format D.holds self lines → Means (D.format self.draft) D.means lines value) }
        ensures refused { IfErr result (λ f. (lines : List Text) → StandsFor D.format D.holds self lines → Refuses (D.format self.draft) lines f.line f.why) }
        ensures repeats { (f : TextFault) → self.fault ≡ Some f → result ≡ Err f }
    {
        if let Some(fault) = self.fault {
            return Err(fault);
        }
        let line = self.count.last_nonblank;
        match self.draft.finish() {
            Ok(value) => Ok(value),
            Err(why) => Err(TextFault { line, why }),
        }
    }
}

/// Reads all lines of a text.
pub fn read_lines<D: LineDraft>(text: &[u8], draft: D) -> Result<D::Value, TextFault>
    requires { D.holds draft [] }
    ensures accepted { IfOk result (Means (D.format draft) D.means (lines_of text.now)) }
    ensures refused { IfErr result (λ f. Refuses (D.format draft) (lines_of text.now) f.line f.why) }
{
    let mut reader = LineReader::new(draft);
    let mut rest = text;
    while let Some((line, after)) = next_line(rest) {
        if let Err(fault) = reader.feed_line(line) {
            return Err(fault);
        }
        rest = after;
    }
    reader.finish()
}
