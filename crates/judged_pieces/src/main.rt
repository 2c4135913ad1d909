//! Judges pieces of time whose verdicts another program worked out, and prints for each list of pieces how many of them come out
//! as they stand there: `judged_pieces LIMITS ALMANACS OUTAGES ROUTE PIECES ..`, five words a list. Several almanacs are parted by
//! commas. A line of a list is `FIRST LAST VERDICT`: two milliseconds since the GPS epoch, and the verdict as a report has it.
//!
//! Where a number stands in place of PIECES, it judges so many milliseconds that are spread evenly over the flight, each by itself,
//! and prints how many have a verdict of each kind, and a checksum of their verdicts' texts.
#![tactic(auto)]

ghost use Rattle.raim_model.specs.Cuts.{AreCuts};
ghost use Rattle.piece_verdict.specs.Alerts.{MayBeJudgedAgainst};

mod agreement;
mod checksum;
mod files;
mod tally;

use agreement::agreement_of;
use files::case_of_files;
use piece_verdict::{Alert, Case, FlightJudge};
use std::{env, fs, io};
use tally::tally_of;

fn print_pieces(rt: &HostRuntime, judge: &FlightJudge, cuts: &[i64], list: &str) -> io::Result<()>
    requires { AreCuts (MayBeJudgedAgainst judge.now.alert judge.now.case) cuts.now }
{
    let lines = fs::read_to_string(rt, list)?;
    let found = agreement_of(judge, cuts, lines.as_str());
    println!(rt;
        "{}: {} of {} pieces agree",
        list, found.agree, found.pieces
    )
}

fn print_tally(rt: &HostRuntime, judge: &FlightJudge, cuts: &[i64], n: u32) -> io::Result<()>
    requires { AreCuts (MayBeJudgedAgainst judge.now.alert judge.now.case) cuts.now }
{
    let tally = tally_of(judge, cuts, n);
    println!(rt;
        "judged {} available {} unavailable {} undecided {} overflow {} checksum {:016x}",
        tally.judged,
        tally.available,
        tally.unavailable,
        tally.undecided,
        tally.overflow,
        tally.checksum.value()
    )
}

/// Judges the pieces of a list, or so many milliseconds, and prints what comes out.
fn print_judged(rt: &HostRuntime, case: Case, asked: &str) -> io::Result<()> {
    let judge = FlightJudge {
        case,
        alert: Alert::Horizontal,
    };
    let Ok(cuts) = judge.cuts(rt.alloc()) else {
        return println!(rt; "{}: out of memory", asked);
    };
    match asked.parse::<u32>() {
        Ok(n) => print_tally(rt, &judge, cuts.as_slice(), n),
        Err(_) => print_pieces(rt, &judge, cuts.as_slice(), asked),
    }
}

fn main(rt: HostRuntime) -> io::Result<()> {
    let mut words = env::args(&rt)?;
    words.next();
    let words: Vec<String> = words.collect(rt.alloc())?;
    for group in words.as_slice().chunks(5) {
        match group {
            [limits, almanacs, outages, route, asked] => match case_of_files(
                &rt,
                limits.as_str(),
                almanacs.as_str(),
                outages.as_str(),
                route.as_str(),
            )? {
                Some(case) => print_judged(&rt, case, asked.as_str())?,
                None => println!(rt; "{}: a file is not accepted", asked)?,
            },
            _ => println!(rt; "judged_pieces LIMITS ALMANACS OUTAGES ROUTE PIECES ..")?,
        }
    }
    Ok(())
}
