// What is kept of the lines so far.
ghost use Rattle.std.specs.Prelude.{◌≡◌, [], ◌∷◌};
ghost use Rattle.nanu_text.specs.Drafts.{IsDraft, IsAfter, AddsTo, told_in};

use crate::entry::read_entry;
use crate::stage::{Entry, Stage};
use notice_model::Notice;
use raim_model::TextWhy;
use std::alloc::Global;
use text_lines::LineDraft;

// How far the message has come, and the notices so far; none where there was no memory for one of them.
#[derive(Drop)]
pub(crate) struct Draft {
    pub(crate) stage: Stage,
    pub(crate) notices: Option<Vec<Notice>>,
}

// The notices with one more behind them.
fn pushed(notices: Option<Vec<Notice>>, notice: Notice) -> Option<Vec<Notice>>
    ensures { AddsTo (told_in notices) (notice ∷ []) (told_in result) }
{
    let mut notices = notices?;
    match notices.push(notice) {
        Ok(()) => Some(notices),
        Err(_) => None,
    }
}

impl Draft {
    pub(crate) fn new(alloc: Global) -> Draft
        ensures { IsDraft result [] }
    {
        Draft {
            stage: Stage::Nothing,
            notices: Some(Vec::new(alloc)),
        }
    }

    // Takes what the next line says.
    fn put(&mut self, entry: Entry)
        ensures { IsAfter self.old entry self.new }
    {
        match entry {
            Entry::Blank => {}
            Entry::Goes(stage) => self.stage = stage,
            Entry::Ends(notice) => {
                self.notices = pushed(self.notices.take(), notice);
                self.stage = Stage::Between;
            }
        }
    }
}

impl LineDraft for Draft {
    ghost use Rattle.nanu_text.specs.Nanus.{nanu_lines};
    ghost use Rattle.nanu_text.specs.Drafts.{IsDraft, Say, told_in};

    type Entry = Entry;

    type Value = Option<Vec<Notice>>;

    ghost format = { λ draft. nanu_lines };

    ghost holds = { IsDraft };

    ghost means = { λ entries v. Say entries (told_in v) };

    fn take(&mut self, line: &[u8]) -> Result<bool, TextWhy> {
        let entry = read_entry(self.stage, line)?;
        self.put(entry);
        Ok(entry.is_blank())
    }

    fn finish(self) -> Result<Option<Vec<Notice>>, TextWhy> {
        match self.stage {
            Stage::Between => Ok(self.notices),
            _ => Err(TextWhy::Short),
        }
    }
}
