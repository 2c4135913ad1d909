// A file of several almanacs, read line by line.
ghost use Rattle.std.specs.Prelude.{◌≡◌, ◌++◌, ◌∷◌, [], List, Err, Some, IfOk, IfErr, true, All, length, nat_lt};
ghost use Rattle.raim_model.specs.declared.Span.{Span};
ghost use Rattle.raim_model.specs.declared.TextFault.{TextFault};
ghost use Rattle.raim_model.specs.Span.{IsFlight};
ghost use Rattle.raim_model.specs.AlmanacRanges.{AreRecords};
ghost use Rattle.text_lines.specs.Lines.{Text};
ghost use Rattle.alm_reader.specs.Almanacs.{is_separator, SayAlmanacs, RefusesAlmanacs, KnowsFault, KnowsNone};
ghost use Rattle.alm_reader.specs.Readers.{HasTaken, IsReading, fault_in};

use crate::section::SectionReader;
use raim_model::{Almanac, OutOfMemory, Span, TextFault, TextWhy};
use std::alloc::Global;
use std::mem;
use text_lines::{BoundedVec, only_word};

const MOST_ALMANACS: usize = 8;

/// Reads a file of 1 to 8 almanacs, each YUMA or SEM, which `---` lines part, fed one line at a time. It
/// keeps the first fault.
#[derive(Drop)]
pub struct AlmanacReader {
    pub(crate) span: Span,
    pub(crate) section: SectionReader,
    // for the sections that follow, and one more
    pub(crate) fresh: Vec<SectionReader>,
    pub(crate) done: BoundedVec<Almanac, 8>,
    // the lines of the file so far, and those before the section
    pub(crate) lines: u32,
    pub(crate) begun: u32,
    pub(crate) fault: Option<TextFault>,
}

// Whether a line parts almanacs.
fn separates(line: &[u8]) -> bool
    ensures { result ≡ is_separator line.now }
{
    match only_word(line) {
        Some(word) => word == b"---".as_slice(),
        None => false,
    }
}

// Whether one more almanac may follow these.
fn has_room(done: &[Almanac]) -> bool
    ensures { result ≡ nat_lt (length done.now) 8 }
{
    done.len() < MOST_ALMANACS
}

impl AlmanacReader {
    /// A reader that was fed no line, with room for all that it may read. Nothing else here takes memory.
    pub fn new(alloc: Global, span: Span) -> Result<AlmanacReader, OutOfMemory>
        requires { IsFlight span }
        ensures { IfOk result (λ reader. HasTaken span reader []) }
    {
        let section = SectionReader::new(alloc, span)?;
        let Ok(done) = BoundedVec::new(alloc) else {
            return Err(OutOfMemory);
        };
        let mut fresh = Vec::new(alloc);
        while fresh.as_slice().len() < MOST_ALMANACS {
            let spare = SectionReader::new(alloc, span)?;
            if let Err(_) = fresh.push(spare) {
                return Err(OutOfMemory);
            }
        }
        Ok(AlmanacReader {
            span,
            section,
            fresh,
            done,
            lines: 0,
            begun: 0,
            fault: None,
        })
    }

    // Keeps a fault of the section.
    fn fail(&mut self, own: TextFault) -> Result<(), TextFault>
        ensures answer { result ≡ Err (fault_in self.old.begun own) }
        ensures kept { self.new ≡ record self.old { fault = Some (fault_in self.old.begun own) } }
    {
        let line = self.begun.saturating_add(own.line);
        let fault = TextFault { line, why: own.why };
        self.fault = Some(fault);
        Err(fault)
    }

    // Ends the section at a `---` line.
    fn end_section(&mut self) -> Result<(), TextFault>
        ensures ok { IfOk result (λ _. (span : Span) (lines : List Text) (line : Text) → is_separator line ≡ true → IsReading span self.old lines → IsReading span self.new (lines ++ line ∷ [])) }
        ensures going { IfOk result (λ _. self.new.fault ≡ self.old.fault) }
        ensures known { IfErr result (λ f. (span : Span) (lines : List Text) (line : Text) → is_separator line ≡ true → IsReading span self.old lines → KnowsFault span (lines ++ line ∷ []) f.line f.why) }
        ensures kept { IfErr result (λ f. self.new.fault ≡ Some f) }
        ensures made { self.new.span ≡ self.old.span }
    {
        self.lines = self.lines.saturating_add(1);
        let Some(next) = self.fresh.pop() else {
            return self.fail(TextFault {
                line: 0,
                why: TextWhy::TooMany,
            });
        };
        let ended = mem::replace(&mut self.section, next);
        match ended.finish() {
            Ok(records) => {
                self.done.try_push(Almanac { records });
                self.begun = self.lines;
                if has_room(self.done.as_slice()) {
                    return Ok(());
                }
                self.fail(TextFault {
                    line: 0,
                    why: TextWhy::TooMany,
                })
            }
            Err(own) => self.fail(own),
        }
    }

    /// Takes the next line. A reader that has met a fault answers that fault for ever.
    pub fn feed_line(&mut self, line: &[u8]) -> Result<(), TextFault>
        ensures taken { (span : Span) (lines : List Text) → HasTaken span self.old lines → HasTaken span self.new (lines ++ line.now ∷ []) }
        ensures none { IfOk result (λ _. (span : Span) (lines : List Text) → HasTaken span self.old lines → KnowsNone span (lines ++ line.now ∷ [])) }
        ensures known { IfErr result (λ f. (span : Span) (lines : List Text) → HasTaken span self.old lines → KnowsFault span (lines ++ line.now ∷ []) f.line f.why) }
        ensures kept { IfErr result (λ f. self.new.fault ≡ Some f) }
        ensures repeats { (f : TextFault) → self.old.fault ≡ Some f → result ≡ Err f }
        ensures made { self.new.span ≡ self.old.span }
    {
        if let Some(fault) = self.fault {
            return Err(fault);
        }
        if separates(line) {
            return self.end_section();
        }
        self.lines = self.lines.saturating_add(1);
        match self.section.feed_line(line) {
            Ok(()) => Ok(()),
            Err(own) => self.fail(own),
        }
    }

    /// The almanacs in the order of the file, or the fault.
    pub fn finish(self) -> Result<Vec<Almanac>, TextFault>
        ensures accepted { IfOk result (λ v. (span : Span) (lines : List Text) → HasTaken span self lines → SayAlmanacs span lines v.items) }
        ensures ranges { IfOk result (λ v. (span : Span) (lines : List Text) → IsFlight span → HasTaken span self lines → All (AreRecords span) v.items) }
        ensures refused { IfErr result (λ f. (span : Span) (lines : List Text) → HasTaken span self lines → RefusesAlmanacs span lines f.line f.why) }
        ensures repeats { (f : TextFault) → self.fault ≡ Some f → result ≡ Err f }
    {
        if let Some(fault) = self.fault {
            return Err(fault);
        }
        let begun = self.begun;
        match self.section.finish() {
            Ok(records) => {
                let mut done = self.done;
                done.try_push(Almanac { records });
                Ok(done.into_vec())
            }
            Err(own) => Err(TextFault {
                line: begun.saturating_add(own.line),
                why: own.why,
            }),
        }
    }
}
