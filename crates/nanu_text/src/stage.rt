// How far a message has come.
ghost use Rattle.std.specs.Prelude.{◌≡◌};
ghost use Rattle.nanu_text.specs.Nanus.{is_blank};

use notice_model::Notice;

// What a message does.
#[derive(Clone, Copy, Debug, PartialEq, Eq)]
pub(crate) enum Kind {
    Add,
    Reschedule,
    Cancel,
}

// What the lines of a message so far said. The target of an Add and the start of a Cancel are 0.
#[derive(Clone, Copy, Debug, PartialEq, Eq)]
pub(crate) enum Stage {
    /// No message has begun.
    Nothing,
    /// A message has ended, and no other has begun.
    Between,
    Typed {
        kind: Kind,
    },
    Numbered {
        kind: Kind,
        number: u32,
    },
    Referred {
        kind: Kind,
        number: u32,
        target: u32,
    },
    Placed {
        kind: Kind,
        number: u32,
        target: u32,
        prn: u8,
    },
    Started {
        kind: Kind,
        number: u32,
        target: u32,
        prn: u8,
        start: i64,
    },
}

// What a line says.
#[derive(Clone, Copy, Debug, PartialEq, Eq)]
pub(crate) enum Entry {
    Blank,
    /// The message has come so far.
    Goes(Stage),
    /// The message ends, and says this notice.
    Ends(Notice),
}

impl Entry {
    pub(crate) fn is_blank(self) -> bool
        ensures { result ≡ is_blank self }
    {
        match self {
            Entry::Blank => true,
            Entry::Goes(_) | Entry::Ends(_) => false,
        }
    }
}
