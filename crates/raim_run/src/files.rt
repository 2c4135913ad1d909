// The files of what is asked.
ghost use Rattle.std.specs.Prelude.{◌≡◌, ◌≤◌, ℕ, List, Option, IfOk, IfErr};
ghost use Rattle.raim_model.specs.declared.FileNo.{FileNo};
ghost use Rattle.raim_model.specs.Ranges.{IsLimits, AreOutages, IsRoute};
ghost use Rattle.raim_model.specs.AlmanacRanges.{AreAlmanacs};
ghost use Rattle.raim_model.specs.Route.{flight_of};
ghost use Rattle.raim_base.specs.Calls.{MakesCalls};
ghost use Rattle.route_interp.specs.Answers.{AreInstants};
ghost use Rattle.command_words.specs.Asked.{asked_by};
ghost use Rattle.command_words.specs.Asked.Asked.{Demonstration};
ghost use Rattle.flight_forecast.specs.Words.{case_of};
ghost use Rattle.raim_run.specs.Calls.{FilesOfCalls};
ghost use Rattle.raim_run.specs.Cases.{IsCaseOf};
ghost use Rattle.raim_run.specs.Others.{StopsAtLast};
ghost use Rattle.raim_run.specs.Stopped.{StopOf};

use command_words::Request;
use demo_texts::demo_files;
use flight_files::{FlightFiles, FlightPaths, Stop, read_files};
use raim_base::{Desk, SureDesk};
use raim_model::FileNo;
use std::alloc::Global;

const DEMO_NAMES: FlightPaths<'static> = FlightPaths {
    limits: "limits",
    almanac: "almanac",
    outages: "outages",
    route: "route",
};

// The four texts of a demonstration, read as files are.
fn read_demonstration(alloc: Global, number: u32) -> Result<FlightFiles, Stop>
    ensures ok { (holds : List ℕ → Option (List ℕ)) → IfOk result (λ files. IsCaseOf (Demonstration number) holds (case_of files.limits files.almanacs.items files.outages.items files.route)) }
    ensures ranges { IfOk result (λ files. IsLimits files.limits × IsRoute files.route × AreOutages files.outages.items × AreAlmanacs (flight_of files.route) files.almanacs.items) }
    ensures instants { IfOk result (λ files. AreInstants files.limits.leap files.route) }
    ensures cause { (holds : List ℕ → Option (List ℕ)) (before now : FileNo → ℕ) → IfErr result (StopOf (Demonstration number) holds before now) }
{
    let Ok(texts) = demo_files(alloc, number) else {
        return Err(Stop::Memory);
    };
    let mut desk = SureDesk::new(texts.limits, texts.almanac, texts.outages, texts.route);
    read_files(alloc, &mut desk, &DEMO_NAMES)
}

// The files of a prediction from the desk, or the texts of a demonstration.
pub(crate) fn read_asked<D: Desk>(
    alloc: Global,
    request: &Request,
    desk: &mut D,
) -> Result<FlightFiles, Stop>
    ensures ok { IfOk result (λ files. IsCaseOf (asked_by request.now) (D.holds desk.old) (case_of files.limits files.almanacs.items files.outages.items files.route)) }
    ensures ranges { IfOk result (λ files. IsLimits files.limits × IsRoute files.route × AreOutages files.outages.items × AreAlmanacs (flight_of files.route) files.almanacs.items) }
    ensures instants { IfOk result (λ files. AreInstants files.limits.leap files.route) }
    ensures cause { IfErr result (StopOf (asked_by request.now) (D.holds desk.old) (D.faults desk.old) (D.faults desk.new)) }
    ensures holds { (p : List ℕ) → D.holds desk.new p ≡ D.holds desk.old p }
    ensures later { (file : FileNo) → D.faults desk.old file ≤ D.faults desk.new file }
    ensures others { StopsAtLast (D.left desk.old) (D.left desk.new) (D.faults desk.old) (D.faults desk.new) (asked_by request.now) result }
    ensures calls { MakesCalls (D.calls desk.old) (D.calls desk.new) (FilesOfCalls (asked_by request.now) result) }
{
    match *request {
        Request::Predict {
            limits,
            almanac,
            outages,
            route,
        } => {
            let paths = FlightPaths {
                limits,
                almanac,
                outages,
                route,
            };
            read_files(alloc, desk, &paths)
        }
        Request::Demo { number } => read_demonstration(alloc, number),
        Request::PredictUp {
            limits,
            almanac,
            outages,
            route,
            vertical: _,
        } => read_files(
            alloc,
            desk,
            &FlightPaths {
                limits,
                almanac,
                outages,
                route,
            },
        ),
    }
}
