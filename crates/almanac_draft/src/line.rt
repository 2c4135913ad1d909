// The lines of an almanac format.
ghost use Rattle.std.specs.Prelude.{◌≡◌};
ghost use Rattle.almanac_draft.specs.Forms.{Form, IsForm};
ghost use Rattle.almanac_draft.specs.Ranges.{IsRanged};

use crate::begun::Begun;
use almanac_fields::Flight;
use raim_model::TextWhy;

/// The kind of a line of one format: some lines of the whole almanac, and then those of each record.
pub trait AlmanacLine: Copy + Drop {
    /// The format.
    ghost form: { Form Self };

    /// The first line of a file.
    fn first() -> Self
        ensures { result ≡ form.first };

    /// The first line of a record.
    fn start() -> Self
        ensures { result ≡ form.start };

    /// The line that follows, and nothing behind the last of a record.
    fn next(self) -> Option<Self>
        ensures { result ≡ form.next self };

    /// Whether a record begins with this line.
    fn begins(self) -> bool
        ensures { result ≡ form.begins self };

    /// Whether this line says the PRN.
    fn names(self) -> bool
        ensures { result ≡ form.names self };

    /// What is said before any line.
    fn nothing() -> Begun
        ensures { result ≡ form.nothing };

    /// What is said behind a line of this kind, or the first test that refuses it.
    fn read(self, flight: Flight, begun: Begun, line: &[u8]) -> Result<Begun, TextWhy>
        ensures { result ≡ form.reads flight.first flight.end self begun line.now };

    /// The lines are in the order of the format.
    ghost lawful: { IsForm form };

    /// The records of an almanac are in their ranges, and apply to the flight.
    ghost ranged: { IsRanged form };
}
