// The verdicts of milliseconds that are spread evenly over a flight.
ghost use Rattle.std.specs.Prelude.{◌<◌};
ghost use Rattle.raim_model.specs.Cuts.{AreCuts};
ghost use Rattle.piece_verdict.specs.Alerts.{MayBeJudgedAgainst};

use crate::agreement::judged;
use crate::checksum::Checksum;
use piece_verdict::FlightJudge;
use raim_model::{Piece, Verdict};
use report_text::words_of_verdict;

/// How many milliseconds were judged, how many have a verdict of each kind, and the checksum of the verdicts' texts, each ended
/// by a line feed.
#[derive(Clone, Copy)]
pub struct Tally {
    pub judged: u32,
    pub available: u32,
    pub unavailable: u32,
    pub undecided: u32,
    pub overflow: u32,
    pub checksum: Checksum,
}

impl Tally {
    /// Of no millisecond.
    fn new() -> Tally {
        Tally {
            judged: 0,
            available: 0,
            unavailable: 0,
            undecided: 0,
            overflow: 0,
            checksum: Checksum::new(),
        }
    }

    /// Counts the verdict of one millisecond. A report has no text for an overflow, so it has one of its own here.
    fn add(&mut self, verdict: Verdict) {
        self.judged = self.judged.saturating_add(1);
        match verdict {
            Verdict::Available => self.available = self.available.saturating_add(1),
            Verdict::Unavailable(_) => self.unavailable = self.unavailable.saturating_add(1),
            Verdict::Undecided(_) => self.undecided = self.undecided.saturating_add(1),
            Verdict::Overflow(prn) => {
                self.overflow = self.overflow.saturating_add(1);
                self.checksum.add_all(b"Overflow ");
                self.checksum.add(b'0' + prn / 10 % 10);
                self.checksum.add(b'0' + prn % 10);
            }
        }
        self.checksum.add_all(words_of_verdict(verdict).as_slice());
        self.checksum.add(b'\n');
    }
}

/// The millisecond at which the part `k` of `n` equal parts of a flight begins, rounded down.
fn part(first: i64, end: i64, k: u32, n: u32) -> Option<i64>
    requires { k < n }
{
    let length = (end as i128).checked_sub(first as i128)?;
    let passed = length.checked_mul(k as i128)? / n as i128;
    let t = (first as i128).checked_add(passed)?;
    i64::try_from(t).ok()
}

/// Judges `n` milliseconds of the cuts' flight, each by itself.
pub fn tally_of(judge: &FlightJudge, cuts: &[i64], n: u32) -> Tally
    requires { AreCuts (MayBeJudgedAgainst judge.now.alert judge.now.case) cuts.now }
{
    let mut tally = Tally::new();
    let [first, .., end] = cuts else {
        return tally;
    };
    for k in 0..n {
        if let Some(t) = part(*first, *end, k, n) {
            if let Some(Piece::Decided(verdict)) = judged(judge, cuts, t, t) {
                tally.add(verdict);
            }
        }
    }
    tally
}
