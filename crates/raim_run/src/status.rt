// How a run ends.
ghost use Rattle.std.specs.Prelude.{◌≡◌};
ghost use Rattle.raim_run.specs.Statuses.{number_of};

use raim_model::{FileNo, TextWhy};

/// How a run ends.
#[derive(Clone, Copy, Debug, PartialEq, Eq)]
pub enum Status {
    /// The whole text was written.
    Done,
    /// The words ask for nothing.
    Usage,
    /// The file leaves its format at that line, or, at line 0, is too long.
    Refused {
        file: FileNo,
        line: u32,
        why: TextWhy,
    },
    /// A call on the file failed.
    ReadFault {
        file: FileNo,
    },
    /// A write failed; a front of the text was written.
    WriteFault,
    /// The first millisecond whose evaluation leaves the range of its numbers, since the GPS epoch, in GPS time, and the
    /// satellite's PRN.
    Overflow {
        at: i64,
        prn: u8,
    },
    /// The flight has more than 65,536 runs.
    TooManyRuns,
    /// No memory was left.
    Memory,
}

impl Status {
    /// The exit status of the program.
    pub fn number(self) -> u8
        ensures { result ≡ number_of self }
    {
        match self {
            Status::Done => 0,
            Status::Usage => 1,
            Status::Refused { .. } => 2,
            Status::ReadFault { .. } => 3,
            Status::WriteFault => 4,
            Status::Overflow { .. } => 5,
            Status::TooManyRuns => 6,
            Status::Memory => 7,
        }
    }
}
