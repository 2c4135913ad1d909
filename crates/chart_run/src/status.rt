// How a run ends.
ghost use Rattle.std.specs.Prelude.{◌≡◌};
ghost use Rattle.chart_run.specs.Statuses.{number_of};

use raim_model::TextWhy;

/// How a run ends.
#[derive(Clone, Copy, Debug, PartialEq, Eq)]
pub enum ChartStatus {
    /// The whole page was written.
    Done,
    /// The words ask for nothing.
    Usage,
    /// The file leaves its format at that line, or, at line 0, is too long.
    Refused { line: u32, why: TextWhy },
    /// A call on the file failed.
    ReadFault,
    /// A write failed; a front of the page was written.
    WriteFault,
    /// No memory was left; nothing was written.
    Memory,
}

impl ChartStatus {
    /// The exit status of the program, as those of `raim`.
    pub fn number(self) -> u8
        ensures { result ≡ number_of self }
    {
        match self {
            ChartStatus::Done => 0,
            ChartStatus::Usage => 1,
            ChartStatus::Refused { .. } => 2,
            ChartStatus::ReadFault => 3,
            ChartStatus::WriteFault => 4,
            ChartStatus::Memory => 7,
        }
    }
}
