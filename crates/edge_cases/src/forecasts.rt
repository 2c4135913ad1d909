// A prediction from four texts that are at hand.
ghost use Rattle.std.specs.Prelude.{◌≡◌, ◌≤◌};

use crate::over::{Texts, texts_of};
use flight_samples::*;
use raim_model::{FileNo, TextWhy};
use raim_run::{Status, predict_texts};
use std::alloc::Global;
use std::marker::Brand;
use std::sync::ledger::{Blank, Ledger};
use std::test::Fail;
use step_counter::Steps;

/// The begin of the second, in milliseconds since the GPS epoch.
const START: i64 = 1_414_022_400_000;

fn predict_counted<L: Ledger>(alloc: Global, texts: Texts, blank: Blank) -> Result<Vec<u8>, Status>
    requires name { blank.name ≡ L.name }
    requires parts { blank.parts ≡ L.parts }
    requires some { 1 ≤ blank.parts }
{
    let mut steps: Steps<L> = Steps::new(blank);
    predict_texts(
        alloc,
        texts.limits,
        texts.almanac,
        texts.outages,
        texts.route,
        &mut steps,
    )
}

/// The report of four texts, or why there is none.
fn predict(alloc: Global, texts: Texts) -> Result<Vec<u8>, Status> {
    predict_counted::<Brand>(alloc, texts, Blank::new(1))
}

#[test]
fn four_texts_are_predicted_or_refused(rt: HostRuntime) -> Result<(), Fail> {
    let alloc = rt.alloc();
    let five = sem_almanac(alloc, "2338", &FIVE)?;
    let five = five.as_str();
    let Ok(report) = predict(alloc, texts_of(MILD, five, OUTAGE, SECOND)) else {
        return Err(Fail::from("the texts are refused"));
    };
    assert_eq!(rt; report.as_slice(), THREE_RUNS.as_bytes());
    let refused = |file, line, why| Status::Refused { file, line, why };
    let overflow = Status::Overflow { at: START, prn: 1 };
    let rows: [(&str, &str, &str, &str, Status); 4] = [
        (
            MILD,
            five,
            OUTAGE,
            "x\n",
            refused(FileNo::Route, 1, TextWhy::Word),
        ),
        (
            "",
            five,
            OUTAGE,
            "",
            refused(FileNo::Limits, 0, TextWhy::Missing),
        ),
        (
            MILD,
            "",
            "x",
            SECOND,
            refused(FileNo::Outages, 1, TextWhy::Word),
        ),
        (OVERFLOWING, five, OUTAGE, SECOND, overflow),
    ];
    for (limits, almanac, outages, route, status) in rows {
        let found = predict(alloc, texts_of(limits, almanac, outages, route));
        assert_eq!(rt; found.err(), Some(status));
    }
    Ok(())
}
