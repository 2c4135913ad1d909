//! Times public calls: `call_bench KIND N`, or several such pairs, makes N calls of each kind, on arguments that each call's
//! number determines, and prints for each pair a line with the kind, N and a sum of the answers (for a kind of range that is
//! split: how many runs and judgements that gave).
#![tactic(auto)]

mod form_calls;
mod halvings;
mod interval_calls;
mod kind;
mod position_calls;
mod receiver_calls;
mod slope_calls;
mod sums;
mod turn_calls;

use halvings::tally_of;
use kind::Kind;
use std::alloc::Global;
use std::io::Print;
use std::{env, io};

const USAGE: &str = "call_bench mul|sqr|div|sqrt|decimal|sine|kepler|position|detect|exclude|\
    frame|look|hidden_look|form_product|form_sine|form_position|form_frame|island|alternating N ..";

/// Makes `n` calls of a kind, and prints its line.
fn print_line(rt: &impl Print, alloc: Global, kind: Kind, n: u32) -> io::Result<()> {
    match kind {
        Kind::Interval(call) => {
            println!(rt; "{} {} {}", kind.name(), n, interval_calls::sum_of(call, n))
        }
        Kind::Sine => println!(rt; "{} {} {}", kind.name(), n, turn_calls::sum_of_sines(n)),
        Kind::Kepler => println!(rt; "{} {} {}", kind.name(), n, turn_calls::sum_of_anomalies(n)),
        Kind::Position => println!(rt; "{} {} {}", kind.name(), n, position_calls::sum_of(n)),
        Kind::Detect => println!(rt;
            "{} {} {}",
            kind.name(),
            n,
            slope_calls::sum_of_detections(n)
        ),
        Kind::Exclude => println!(rt;
            "{} {} {}",
            kind.name(),
            n,
            slope_calls::sum_of_exclusions(n)
        ),
        Kind::Frame => println!(rt;
            "{} {} {}",
            kind.name(),
            n,
            receiver_calls::sum_of_frames(n)
        ),
        Kind::Look(side) => println!(rt;
            "{} {} {}",
            kind.name(),
            n,
            receiver_calls::sum_of_looks(side, n)
        ),
        Kind::Form(call) => {
            println!(rt; "{} {} {}", kind.name(), n, form_calls::sum_of(call, n))
        }
        Kind::Halving(range) => match tally_of(alloc, range, n) {
            Ok(tally) => println!(rt;
                "{} {} runs {} judgements {}",
                kind.name(),
                n,
                tally.runs,
                tally.judgements
            ),
            Err(_) => println!(rt; "no answer"),
        },
    }
}

fn main(rt: HostRuntime) -> io::Result<()> {
    let mut words = env::args(&rt)?;
    words.next();
    let mut waiting = None;
    let mut answered = false;
    for word in words {
        let Some(kind) = waiting else {
            waiting = Kind::of(word.as_str());
            continue;
        };
        let Ok(n) = word.as_str().parse::<u32>() else {
            break;
        };
        print_line(&rt, rt.alloc(), kind, n)?;
        waiting = None;
        answered = true;
    }
    if !answered {
        println!(rt; "{}", USAGE)?;
    }
    Ok(())
}
