// The verdict that a text spells.
ghost use Rattle.std.specs.Prelude.{◌≡◌, ◌<◌};
ghost use Rattle.gps_week.specs.TimeReading.{digit_at, two_at};
ghost use Rattle.report_text.specs.ReportLines.{spells, forms_of, verdict_of};

use crate::verdict_text::words_of_verdict;
use raim_model::{Cmp, Verdict, Why};

// The digit that stands at a place, whatever byte it is.
fn digit(text: &[u8], place: usize) -> u8
    ensures value { result ≡ digit_at text.now place }
    ensures few { result < 10 }
{
    match text.get(place) {
        Some(byte) => byte.saturating_sub(b'0') % 10,
        None => 0,
    }
}

// The number whose two digits begin at a place.
fn two_digits(text: &[u8], place: usize) -> u8
    requires { place < 100 }
    ensures { result ≡ two_at text.now place }
{
    10 * digit(text, place) + digit(text, place + 1)
}

// The nine forms of a verdict, with the PRNs that stand at their places.
fn forms(text: &[u8]) -> [Verdict; 9]
    ensures { result ≡ forms_of text.now }
{
    [
        Verdict::Available,
        Verdict::Unavailable(Why::Few),
        Verdict::Unavailable(Why::Singular),
        Verdict::Unavailable(Why::Slope),
        Verdict::Undecided(Cmp::Mask(two_digits(text, 15))),
        Verdict::Undecided(Cmp::Det),
        Verdict::Undecided(Cmp::Slope(two_digits(text, 16))),
        Verdict::Undecided(Cmp::DetWithout(two_digits(text, 21))),
        Verdict::Undecided(Cmp::SlopeWithout(two_digits(text, 23), two_digits(text, 26))),
    ]
}

fn spells(text: &[u8], verdict: Verdict) -> bool
    ensures { result ≡ spells text.now verdict }
{
    text == words_of_verdict(verdict).as_slice()
}

// The verdict that a text spells.
pub(crate) fn read_verdict(text: &[u8]) -> Option<Verdict>
    ensures { result ≡ verdict_of text.now }
{
    for form in forms(text) {
        if spells(text, form) {
            return Some(form);
        }
    }
    None
}
