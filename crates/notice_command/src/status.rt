// How a run ends.
ghost use Rattle.std.specs.Prelude.{◌≡◌};
ghost use Rattle.notice_command.specs.Statuses.{number_of, status_for};

use notice_book::{BookFault, BookStop, NoticeStatus};
use raim_model::TextWhy;

/// How a run ends.
#[derive(Clone, Copy, Debug, PartialEq, Eq)]
pub enum NanuStatus {
    /// As a command of the book ends.
    Plain(NoticeStatus),
    /// A call on the file failed.
    ReadFault,
    /// The file leaves its format at that line, or is too long.
    BadText { line: u32, why: TextWhy },
    /// The first `at` notices were accepted, and the next one was not.
    Stopped { at: u32, why: BookFault },
}

impl NanuStatus {
    /// The exit status of the program.
    pub fn number(self) -> u8
        ensures { result ≡ number_of self }
    {
        match self {
            NanuStatus::Plain(status) => status.number(),
            NanuStatus::ReadFault => 5,
            NanuStatus::BadText { .. } => 6,
            NanuStatus::Stopped { .. } => 2,
        }
    }
}

// The status of a list of notices that was stopped.
pub(crate) fn status_of(stop: BookStop) -> NanuStatus
    ensures { result ≡ status_for stop }
{
    let at = stop.at;
    let why = stop.why;
    match why {
        BookFault::KeeperFault => NanuStatus::Plain(NoticeStatus::KeeperFault),
        BookFault::Memory => NanuStatus::Plain(NoticeStatus::Memory),
        _ => NanuStatus::Stopped { at, why },
    }
}
