// A prediction from four texts that are at hand.
ghost use Rattle.std.specs.Prelude.{◌≡◌, ◌≢◌, ℕ, ℤ, Err, IfOk, IfErr};
ghost use Rattle.raim_model.specs.declared.FileNo.{FileNo};
ghost use Rattle.raim_model.specs.declared.TextWhy.{TextWhy};
ghost use Rattle.raim_run.specs.Printed.{ArePrintable, HasNote};
ghost use Rattle.raim_run.specs.Texts.{four, from_texts, held_in, IsPredicted, IsUnpredicted, AreRefused, Overflows, AreManifold, TakesSteps, Settle};

use crate::Status;
use crate::ending::Ending;
use crate::runs::{FlightRuns, runs_asked};
use command_words::Request;
use raim_base::SureDesk;
use report_text::print_report;
use std::alloc::{AllocError, Global};
use std::sync::ledger::Ledger;
use step_counter::Steps;

const NAMES: Request<'static> = Request::Predict {
    limits: "limits",
    almanac: "almanac",
    outages: "outages",
    route: "route",
};

// A desk that holds the four texts.
fn desk_of(
    alloc: Global,
    limits: &[u8],
    almanac: &[u8],
    outages: &[u8],
    route: &[u8],
) -> Result<SureDesk, AllocError>
    ensures { IfOk result (λ desk. desk.texts ≡ four limits.now almanac.now outages.now route.now) }
{
    let limits = limits.to_vec(alloc)?;
    let almanac = almanac.to_vec(alloc)?;
    let outages = outages.to_vec(alloc)?;
    let route = route.to_vec(alloc)?;
    Ok(SureDesk::new(limits, almanac, outages, route))
}

// The runs of the flight that the four texts are.
fn runs_of_texts<L: Ledger>(
    alloc: Global,
    limits: &[u8],
    almanac: &[u8],
    outages: &[u8],
    route: &[u8],
    steps: &mut Steps<L>,
) -> Result<FlightRuns, Ending>
    ensures ok { IfOk result (λ flight. ArePrintable from_texts (held_in (four limits.now almanac.now outages.now route.now)) flight.leap flight.runs.items) }
    ensures cause { IfErr result (λ ending. IsUnpredicted (four limits.now almanac.now outages.now route.now) ending.status) }
    ensures note { IfErr result (λ ending. HasNote from_texts (held_in (four limits.now almanac.now outages.now route.now)) ending.leap ending.status) }
    ensures steps { TakesSteps (four limits.now almanac.now outages.now route.now) steps.old steps.new }
{
    let Ok(mut desk) = desk_of(alloc, limits, almanac, outages, route) else {
        return Err(Ending {
            status: Status::Memory,
            leap: 0,
        });
    };
    runs_asked(alloc, &NAMES, &mut desk, steps)
}

/// `predict_texts`, which at `Err` answers besides the status the leap seconds under which its note has a time.
pub fn predict_to_ending<L: Ledger>(
    alloc: Global,
    limits: &[u8],
    almanac: &[u8],
    outages: &[u8],
    route: &[u8],
    steps: &mut Steps<L>,
) -> Result<Vec<u8>, Ending>
    ensures done { IfOk result (λ text. IsPredicted (four limits.now almanac.now outages.now route.now) text.items) }
    ensures cause { IfErr result (λ ending. IsUnpredicted (four limits.now almanac.now outages.now route.now) ending.status) }
    ensures note { IfErr result (λ ending. HasNote from_texts (held_in (four limits.now almanac.now outages.now route.now)) ending.leap ending.status) }
    ensures steps { TakesSteps (four limits.now almanac.now outages.now route.now) steps.old steps.new }
{
    let flight = match runs_of_texts(alloc, limits, almanac, outages, route, steps) {
        Ok(flight) => flight,
        Err(ending) => return Err(ending),
    };
    match print_report(alloc, &flight.runs, flight.leap) {
        Ok(text) => Ok(text),
        Err(_) => Err(Ending {
            status: Status::Memory,
            leap: 0,
        }),
    }
}

/// Predicts a flight from the texts of its four files: the text that `run` writes of a prediction from files that hold
/// them, or the status with which it ends without one.
///
/// Limits, route, outages and almanac are read in this order. A step is a judgement of a piece of the flight.
pub fn predict_texts<L: Ledger>(
    alloc: Global,
    limits: &[u8],
    almanac: &[u8],
    outages: &[u8],
    route: &[u8],
    steps: &mut Steps<L>,
) -> Result<Vec<u8>, Status>
    ensures done { IfOk result (λ text. IsPredicted (four limits.now almanac.now outages.now route.now) text.items) }
    ensures refused { (file : FileNo) (line : ℕ) (why : TextWhy) → result ≡ Err (Status.Refused file line why) →
        AreRefused (four limits.now almanac.now outages.now route.now) file line why }
    ensures overflow { (at : ℤ) (prn : ℕ) → result ≡ Err (Status.Overflow at prn) → Overflows (four limits.now almanac.now outages.now route.now) at prn }
    ensures too_many { result ≡ Err Status.TooManyRuns → AreManifold (four limits.now almanac.now outages.now route.now) }
    // No other status but Memory comes.
    ensures cause { IfErr result (IsUnpredicted (four limits.now almanac.now outages.now route.now)) }
    // The other direction: but for want of memory, the four texts settle the answer.
    ensures settled { result ≢ Err Status.Memory → Settle (four limits.now almanac.now outages.now route.now) (λ text. text.items) result }
    // No more judgements than halving the root pieces needs, and none where the texts are no case.
    ensures steps { TakesSteps (four limits.now almanac.now outages.now route.now) steps.old steps.new }
{
    match predict_to_ending(alloc, limits, almanac, outages, route, steps) {
        Ok(text) => Ok(text),
        Err(ending) => Err(ending.status),
    }
}
