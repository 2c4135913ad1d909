// The runs of the flight that the files are.
ghost use Rattle.std.specs.Prelude.{◌≡◌, ◌≤◌, ℕ, List, IfOk, IfErr};
ghost use Rattle.raim_model.specs.declared.FileNo.{FileNo};
ghost use Rattle.raim_base.specs.Calls.{MakesCalls};
ghost use Rattle.command_words.specs.Asked.{asked_by};
ghost use Rattle.flight_forecast.specs.Alerts.{IsAlert};
ghost use Rattle.raim_run.specs.Alerts.{alert_of};
ghost use Rattle.raim_run.specs.Calls.{RunsCalls};
ghost use Rattle.raim_run.specs.Causes.{NoRunsCause};
ghost use Rattle.raim_run.specs.Others.{RunsOthers};
ghost use Rattle.raim_run.specs.Printed.{ArePrintable, HasNote};
ghost use Rattle.raim_run.specs.Statuses.{stop_status, fault_status};
ghost use Rattle.raim_run.specs.Steps.{AreSteps};

use crate::Status;
use crate::ending::Ending;
use crate::files::read_asked;
use command_words::Request;
use flight_files::Stop;
use flight_forecast::{Alert, forecast_against};
use raim_base::Desk;
use raim_model::{Run, SplitFault, TextWhy};
use std::alloc::Global;
use std::sync::ledger::Ledger;
use step_counter::Steps;

// The runs of a flight, and the leap seconds of its limits.
#[derive(Drop)]
pub(crate) struct FlightRuns {
    pub(crate) runs: Vec<Run>,
    pub(crate) leap: u8,
}

// The status of a run whose reading was stopped.
pub(crate) fn status_of_stop(stop: Stop) -> Status
    ensures { result ≡ stop_status stop }
{
    match stop {
        Stop::Memory => Status::Memory,
        Stop::Fault { file } => Status::ReadFault { file },
        Stop::TooLong { file } => Status::Refused {
            file,
            line: 0,
            why: TextWhy::FileTooLong,
        },
        Stop::Refused { file, line, why } => Status::Refused { file, line, why },
    }
}

// The status of a run that has no forecast.
fn status_of_fault(reason: SplitFault) -> Status
    ensures { result ≡ fault_status reason }
{
    match reason {
        SplitFault::Overflow { at, prn } => Status::Overflow { at, prn },
        SplitFault::TooManyRuns => Status::TooManyRuns,
        SplitFault::Memory => Status::Memory,
    }
}

// What the verdicts that are asked for are held against.
fn alert_asked(request: &Request) -> Alert
    ensures value { result ≡ alert_of (asked_by request.now) }
    ensures limit { IsAlert result }
{
    match *request {
        Request::Predict { .. } => Alert::Horizontal,
        Request::Demo { .. } => Alert::Horizontal,
        Request::PredictUp { vertical, .. } => Alert::Vertical {
            limit_mm: vertical.mm,
        },
    }
}

// Reads the files of what is asked, and judges their flight.
pub(crate) fn runs_asked<D: Desk, L: Ledger>(
    alloc: Global,
    request: &Request,
    desk: &mut D,
    steps: &mut Steps<L>,
) -> Result<FlightRuns, Ending>
    ensures ok { IfOk result (λ flight. ArePrintable (asked_by request.now) (D.holds desk.old) flight.leap flight.runs.items) }
    ensures cause { IfErr result (λ ending. NoRunsCause (asked_by request.now) (D.holds desk.old) (D.faults desk.old) (D.faults desk.new) ending.status) }
    ensures note { IfErr result (λ ending. HasNote (asked_by request.now) (D.holds desk.old) ending.leap ending.status) }
    ensures holds { (p : List ℕ) → D.holds desk.new p ≡ D.holds desk.old p }
    ensures later { (file : FileNo) → D.faults desk.old file ≤ D.faults desk.new file }
    ensures others { RunsOthers (D.left desk.old) (D.left desk.new) (D.faults desk.old) (D.faults desk.new) (asked_by request.now) result }
    ensures calls { MakesCalls (D.calls desk.old) (D.calls desk.new) (RunsCalls (asked_by request.now) result) }
    ensures steps { AreSteps (asked_by request.now) (D.holds desk.old) steps.old steps.new }
{
    let files = match read_asked(alloc, request, desk) {
        Ok(files) => files,
        Err(stop) => {
            let status = status_of_stop(stop);
            return Err(Ending { status, leap: 0 });
        }
    };
    let leap = files.limits.leap;
    match forecast_against(
        alloc,
        alert_asked(request),
        files.limits,
        files.almanacs,
        files.outages,
        files.route,
        steps,
    ) {
        Ok(runs) => Ok(FlightRuns { runs, leap }),
        Err(reason) => {
            let status = status_of_fault(reason);
            Err(Ending { status, leap })
        }
    }
}
