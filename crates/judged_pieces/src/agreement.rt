// How many pieces come out as their lines have them.
ghost use Rattle.std.specs.Prelude.{◌≡◌, ◌≤◌};
ghost use Rattle.raim_model.specs.Cuts.{AreCuts};
ghost use Rattle.piece_verdict.specs.Alerts.{MayBeJudgedAgainst};

use piece_verdict::FlightJudge;
use raim_model::{Cmp, Piece, Verdict, Why};
use std::marker::Brand;
use std::str::SplitWhitespace;
use std::sync::ledger::{Blank, Ledger};
use step_counter::Steps;
use verdict_cases::judge_within;

/// How many lines a list has, and how many of them agree.
#[derive(Clone, Copy)]
pub struct Agreement {
    pub pieces: u32,
    pub agree: u32,
}

/// Whether a word is a PRN in two digits.
fn is_prn(word: Option<&str>, prn: u8) -> bool {
    match word {
        Some(word) => word.len() == 2 && word.parse::<u8>() == Ok(prn),
        None => false,
    }
}

/// The word for a reason.
fn word_for(why: Why) -> &'static str {
    match why {
        Why::Few => "Few",
        Why::Singular => "Singular",
        Why::Slope => "Slope",
    }
}

/// Whether the next words are those of a comparison.
fn spell_comparison(words: &mut SplitWhitespace, comparison: Cmp) -> bool {
    let name = words.next();
    match comparison {
        Cmp::Mask(prn) => name == Some("Mask") && is_prn(words.next(), prn),
        Cmp::Det => name == Some("Det"),
        Cmp::Slope(prn) => name == Some("Slope") && is_prn(words.next(), prn),
        Cmp::DetWithout(removed) => name == Some("DetWithout") && is_prn(words.next(), removed),
        Cmp::SlopeWithout(removed, prn) => {
            name == Some("SlopeWithout")
                && is_prn(words.next(), removed)
                && is_prn(words.next(), prn)
        }
    }
}

/// Whether the words behind the two milliseconds are those of a verdict.
fn spell(mut words: SplitWhitespace, verdict: Verdict) -> bool {
    let kind = words.next();
    let agrees = match verdict {
        Verdict::Available => kind == Some("Available"),
        Verdict::Unavailable(why) => {
            kind == Some("Unavailable") && words.next() == Some(word_for(why))
        }
        Verdict::Undecided(comparison) => {
            kind == Some("Undecided") && spell_comparison(&mut words, comparison)
        }
        Verdict::Overflow(prn) => kind == Some("Overflow") && is_prn(words.next(), prn),
    };
    agrees && words.next().is_none()
}

fn judged_counted<L: Ledger>(
    judge: &FlightJudge,
    cuts: &[i64],
    first: i64,
    last: i64,
    blank: Blank,
) -> Option<Piece>
    requires cuts { AreCuts (MayBeJudgedAgainst judge.now.alert judge.now.case) cuts.now }
    requires name { blank.name ≡ L.name }
    requires parts { blank.parts ≡ L.parts }
    requires some { 1 ≤ blank.parts }
{
    let mut steps: Steps<L> = Steps::new(blank);
    judge_within(judge, cuts, first, last, &mut steps)
}

/// What judging a piece answers, where it lies between two neighbours of the cuts.
pub fn judged(judge: &FlightJudge, cuts: &[i64], first: i64, last: i64) -> Option<Piece>
    requires { AreCuts (MayBeJudgedAgainst judge.now.alert judge.now.case) cuts.now }
{
    judged_counted::<Brand>(judge, cuts, first, last, Blank::new(1))
}

/// Whether a line's verdict is what is answered on its piece: of several milliseconds it is answered that they are to be halved
/// where the verdict is undecided.
fn agrees(judge: &FlightJudge, cuts: &[i64], line: &str) -> bool
    requires { AreCuts (MayBeJudgedAgainst judge.now.alert judge.now.case) cuts.now }
{
    let mut words = line.split_whitespace();
    let Some(Ok(first)) = words.next().map(|word| word.parse::<i64>()) else {
        return false;
    };
    let Some(Ok(last)) = words.next().map(|word| word.parse::<i64>()) else {
        return false;
    };
    match judged(judge, cuts, first, last) {
        Some(Piece::Decided(verdict)) => spell(words, verdict),
        Some(Piece::Split) => words.next() == Some("Undecided"),
        None => false,
    }
}

/// Judges each line's piece.
pub fn agreement_of(judge: &FlightJudge, cuts: &[i64], lines: &str) -> Agreement
    requires { AreCuts (MayBeJudgedAgainst judge.now.alert judge.now.case) cuts.now }
{
    let mut found = Agreement {
        pieces: 0,
        agree: 0,
    };
    for line in lines.lines() {
        found.pieces = found.pieces.saturating_add(1);
        if agrees(judge, cuts, line) {
            found.agree = found.agree.saturating_add(1);
        }
    }
    found
}
