// What is kept of the lines of an almanac.
ghost use Rattle.std.specs.Prelude.{◌≡◌, IsOk, IfOk, IfErr, Some, None, IsPermutation, IsSortedByKey};
ghost use Rattle.std.specs.Ordering.{nat_cmp};
ghost use Rattle.raim_model.specs.Span.{IsFlight};
ghost use Rattle.almanac_draft.specs.Lines.{said_on, line_said, entry_of, end_of};
ghost use Rattle.almanac_draft.specs.Drafts.{said_by, IsAfter, IsNewDraft};

use crate::begun::Begun;
use crate::count::{check_further, count_fault};
use crate::line::AlmanacLine;
use almanac_fields::{Flight, fresh_prn};
use raim_model::{AlmRecord, Span, TextWhy};
use std::alloc::{AllocError, Global};
use text_lines::{BoundedVec, LineDraft, next_word};

/// The flight, the line that is expected, what the lines of the whole almanac say, what is said of the
/// record that is current, and the whole records.
#[derive(Drop)]
pub struct AlmanacDraft<L> {
    pub(crate) flight: Flight,
    pub(crate) kind: L,
    pub(crate) head: Begun,
    pub(crate) current: Begun,
    pub(crate) records: BoundedVec<AlmRecord, 32>,
}

impl<L: AlmanacLine> AlmanacDraft<L> {
    /// The draft of no line, with room for 32 records. Nothing else here takes memory.
    pub fn new(alloc: Global, span: Span) -> Result<AlmanacDraft<L>, AllocError>
        requires { IsFlight span }
        ensures { IfOk result (IsNewDraft L.form span) }
    {
        let records = BoundedVec::new(alloc)?;
        Ok(AlmanacDraft {
            flight: Flight::of(span),
            kind: L::first(),
            head: L::nothing(),
            current: L::nothing(),
            records,
        })
    }

    // What is said behind a line that is not blank. A PRN is that of no record before.
    fn read_line(&self, line: &[u8]) -> Result<Begun, TextWhy>
        ensures { result ≡ line_said L.form self.now.flight.first self.now.flight.end (said_by self.now) line.now }
    {
        if !self.kind.names() {
            return self.kind.read(self.flight, self.current, line);
        }
        check_further(self.head.declared, self.records.as_slice().len())?;
        let begun = self.kind.read(self.flight, self.current, line)?;
        fresh_prn(self.records.as_slice(), begun.values.prn)?;
        Ok(begun)
    }

    // What a line says: nothing where it is blank.
    fn read(&self, line: &[u8]) -> Result<Option<Begun>, TextWhy>
        ensures { result ≡ entry_of L.form self.now.flight.first self.now.flight.end (said_by self.now) line.now }
    {
        match next_word(line) {
            None => Ok(None),
            Some(_) => {
                let begun = self.read_line(line)?;
                Ok(Some(begun))
            }
        }
    }

    // Goes on to the next line. Behind the last line of a record the record is whole.
    fn put(&mut self, begun: Begun)
        ensures { IsAfter L.form self.old (Some begun) self.new }
    {
        match self.kind.next() {
            Some(kind) => {
                if kind.begins() {
                    self.head = begun;
                }
                self.kind = kind;
                self.current = begun;
            }
            None => {
                self.records.try_push(begun.values);
                self.kind = L::start();
                self.current = self.head;
            }
        }
    }

    // The records by rising PRN, where the file may end here.
    fn sorted(self) -> Result<Vec<AlmRecord>, TextWhy>
        ensures ends { IsOk result → end_of L.form (said_by self) ≡ None }
        ensures same { IfOk result (λ v. IsPermutation self.records v.items) }
        ensures rising { IfOk result (λ v. IsSortedByKey (λ r. r.prn) nat_cmp v.items) }
        ensures fault { IfErr result (λ why. end_of L.form (said_by self) ≡ Some why) }
    {
        if !self.kind.begins() {
            return Err(TextWhy::Short);
        }
        if let Some(why) = count_fault(self.head.declared, self.records.as_slice().len()) {
            return Err(why);
        }
        let mut records = self.records.into_vec();
        records.sort_unstable_by_key(|r| r.prn);
        Ok(records)
    }
}

impl<L: AlmanacLine> LineDraft for AlmanacDraft<L> {
    ghost use Rattle.almanac_draft.specs.Lines.{almanac_lines};
    ghost use Rattle.almanac_draft.specs.Drafts.{IsDraft, AreSaid};

    type Entry = Option<Begun>;

    type Value = Vec<AlmRecord>;

    ghost format = { λ draft. almanac_lines L.form draft.flight.first draft.flight.end };

    ghost holds = { IsDraft L.form };

    ghost means = { λ entries v. AreSaid L.form entries v.items };

    fn take(&mut self, line: &[u8]) -> Result<bool, TextWhy> {
        match self.read(line) {
            Ok(None) => Ok(true),
            Ok(Some(begun)) => {
                self.put(begun);
                Ok(false)
            }
            Err(why) => Err(why),
        }
    }

    fn finish(self) -> Result<Vec<AlmRecord>, TextWhy> {
        match self.sorted() {
            Ok(records) => Ok(records),
            Err(why) => Err(why),
        }
    }
}
