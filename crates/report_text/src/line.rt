// One line of a report.
ghost use Rattle.std.specs.Prelude.{◌≡◌, ℕ, Err, Ok, ◌∷◌, List, IfOk, IfErr, length, ◌<◌};
ghost use Rattle.std.specs.List.{list_all};
ghost use Rattle.std.specs.Result.{result_map_both};
ghost use Rattle.report_text.specs.Report.{prns_of};
ghost use Rattle.report_text.specs.ReportLines.{is_prn, parts_of, run_of, entry_of, pieces_of};

use crate::cut::{cut, word};
use crate::verdict_form::read_verdict;
use gps_week::read_time;
use raim_model::{Cmp, Run, TextWhy, Verdict};

// The two words and the verdict of a line, with one space between them: else `Word`.
fn parts(line: &[u8]) -> Result<(&[u8], &[u8], Verdict), TextWhy>
    ensures { result_map_both (λ p. (p.0.now, p.1.now, p.2)) (λ why. why) result ≡ parts_of line.now }
{
    let Some((start, rest)) = word(line) else {
        return Err(TextWhy::Word);
    };
    let Some((end, rest)) = word(rest) else {
        return Err(TextWhy::Word);
    };
    let Some(verdict) = read_verdict(rest) else {
        return Err(TextWhy::Word);
    };
    Ok((start, end, verdict))
}

// Whether a PRN is 1 to 32.
fn in_range(prn: u8) -> bool
    ensures { result ≡ is_prn prn }
{
    1 <= prn && prn <= 32
}

// Whether each PRN of a comparison is 1 to 32.
fn cmp_in_range(cmp: Cmp) -> bool
    ensures { result ≡ list_all is_prn (prns_of (Verdict.Undecided cmp)) }
{
    match cmp {
        Cmp::Mask(prn) => in_range(prn),
        Cmp::Det => true,
        Cmp::Slope(prn) => in_range(prn),
        Cmp::DetWithout(left) => in_range(left),
        Cmp::SlopeWithout(left, prn) => in_range(left) && in_range(prn),
    }
}

// Whether each PRN of a verdict is 1 to 32.
fn verdict_in_range(verdict: Verdict) -> bool
    ensures { result ≡ list_all is_prn (prns_of verdict) }
{
    match verdict {
        Verdict::Available => true,
        Verdict::Unavailable(_) => true,
        Verdict::Undecided(cmp) => cmp_in_range(cmp),
        Verdict::Overflow(prn) => in_range(prn),
    }
}

// The run that a line says, without its line feed.
fn read_run(line: &[u8], leap: u8) -> Result<Run, TextWhy>
    ensures { result ≡ run_of leap line.now }
{
    let (start, end, verdict) = parts(line)?;
    let first = read_time(start, leap)?;
    let end = read_time(end, leap)?;
    if !verdict_in_range(verdict) {
        return Err(TextWhy::Range);
    }
    if first >= end {
        return Err(TextWhy::NotRising);
    }
    Ok(Run {
        first,
        end,
        verdict,
    })
}

// The run that the first line of a text says, and the lines behind it.
pub(crate) fn next_run(text: &[u8], leap: u8) -> Result<(Run, &[u8]), TextWhy>
    requires { 0 < length text.now }
    ensures run { IfOk result (λ found. (piece : List ℕ) × (pieces_of text.now ≡ piece ∷ pieces_of found.1.now)
        × (entry_of leap piece ≡ Ok found.0)) }
    ensures shorter { IfOk result (λ found. length found.1.now < length text.now) }
    ensures fault { IfErr result (λ why. (piece : List ℕ) × (rest : List (List ℕ)) × (pieces_of text.now ≡ piece ∷ rest)
        × (entry_of leap piece ≡ Err why)) }
{
    let Some((line, rest)) = cut(text, b'\n') else {
        return Err(TextWhy::Short);
    };
    match read_run(line, leap) {
        Ok(run) => Ok((run, rest)),
        Err(why) => Err(why),
    }
}
