// The four files in their order.
ghost use Rattle.std.specs.Prelude.{◌≡◌, ◌≤◌, ◌<◌, ℕ, List, Err, IfOk, IfErr};
ghost use Rattle.raim_model.specs.declared.FileNo.{FileNo};
ghost use Rattle.raim_model.specs.declared.TextWhy.{TextWhy};
ghost use Rattle.raim_model.specs.Ranges.{IsLimits, AreOutages, IsRoute};
ghost use Rattle.raim_model.specs.AlmanacRanges.{AreAlmanacs};
ghost use Rattle.raim_model.specs.Route.{flight_of};
ghost use Rattle.raim_base.specs.Causes.{Rose};
ghost use Rattle.raim_base.specs.Calls.{MakesCalls};
ghost use Rattle.route_interp.specs.Answers.{AreInstants};
ghost use Rattle.flight_files.specs.Paths.{paths_of};
ghost use Rattle.flight_files.specs.Files.{AreAcceptedFiles, IsRefusedFirst, IsTooLongFirst};
ghost use Rattle.flight_files.specs.Stops.{StopCause, IsFaultyFirst};
ghost use Rattle.flight_files.specs.Order.{Names, place_of};
ghost use Rattle.flight_files.specs.Calls.{FilesCalls};
ghost use Rattle.flight_files.specs.Settled.{Settles, Completes};

use crate::one_file::{read_almanac_file, read_limits_file, read_outages_file, read_route_file};
use crate::{FlightFiles, FlightPaths, Stop};
use raim_base::Desk;
use std::alloc::Global;

// Reads the files one after another, each to its end before the next is named.
fn read_in_order<D: Desk>(
    alloc: Global,
    desk: &mut D,
    paths: &FlightPaths,
) -> Result<FlightFiles, Stop>
    ensures ok { IfOk result (λ files. AreAcceptedFiles (D.holds desk.old) (paths_of paths.now) files.limits files.route files.outages.items files.almanacs.items) }
    ensures ranges { IfOk result (λ files. IsLimits files.limits × IsRoute files.route × AreOutages files.outages.items × AreAlmanacs (flight_of files.route) files.almanacs.items) }
    ensures instants { IfOk result (λ files. AreInstants files.limits.leap files.route) }
    ensures cause { IfErr result (StopCause (D.holds desk.old) (paths_of paths.now) (D.faults desk.old) (D.faults desk.new)) }
    ensures holds { (p : List ℕ) → D.holds desk.new p ≡ D.holds desk.old p }
    ensures later { (file : FileNo) → D.faults desk.old file ≤ D.faults desk.new file }
    ensures others { IfErr result (λ stop. (file other : FileNo) → Names stop file → place_of file < place_of other →
        (D.left desk.new other ≡ D.left desk.old other) × (D.faults desk.new other ≡ D.faults desk.old other)) }
    ensures calls { MakesCalls (D.calls desk.old) (D.calls desk.new) (FilesCalls (paths_of paths.now) result) }
{
    let limits = match read_limits_file(alloc, desk, paths.limits) {
        Ok(limits) => limits,
        Err(stop) => return Err(stop),
    };
    let route = match read_route_file(alloc, desk, paths.route, limits.leap) {
        Ok(route) => route,
        Err(stop) => return Err(stop),
    };
    let outages = match read_outages_file(alloc, desk, paths.outages, limits.leap) {
        Ok(outages) => outages,
        Err(stop) => return Err(stop),
    };
    match read_almanac_file(alloc, desk, paths.almanac, route.span()) {
        Ok(almanacs) => Ok(FlightFiles {
            limits,
            route,
            outages,
            almanacs,
        }),
        Err(stop) => Err(stop),
    }
}

/// Reads the four files of a prediction in the order limits, route, outages, almanac: the leap seconds
/// stand in the first, and the flight has to be known before the almanac's week is resolved. Each is
/// named once, read to its end and read as what it says before the next is named.
///
/// The first file that is not accepted stops the reading. For one file a failed call comes before too
/// many bytes, and these before the first line that leaves its format. Limits, route and outages are held
/// whole while they are read; the almanac is held a piece at a time.
pub fn read_files<D: Desk>(
    alloc: Global,
    desk: &mut D,
    paths: &FlightPaths,
) -> Result<FlightFiles, Stop>
    // What is answered is what the four paths hold, where the desk tells it; and it is in the ranges of a case.
    ensures ok { IfOk result (λ files. AreAcceptedFiles (D.holds desk.old) (paths_of paths.now) files.limits files.route files.outages.items files.almanacs.items) }
    ensures ranges { IfOk result (λ files. IsLimits files.limits × IsRoute files.route × AreOutages files.outages.items × AreAlmanacs (flight_of files.route) files.almanacs.items) }
    ensures instants { IfOk result (λ files. AreInstants files.limits.leap files.route) }

    // A file is refused where it is the first that its format refuses, at this line for this cause.
    ensures refused { (file : FileNo) (line : ℕ) (why : TextWhy) → result ≡ Err (Stop.Refused file line why) →
        IsRefusedFirst (D.holds desk.old) (paths_of paths.now) file line why }
    ensures too_long { (file : FileNo) → result ≡ Err (Stop.TooLong file) → IsTooLongFirst (D.holds desk.old) (paths_of paths.now) file }

    // A fault is answered only where the count of this very file rose, and the files before it are accepted.
    ensures fault { (file : FileNo) → result ≡ Err (Stop.Fault file) →
        IsFaultyFirst (D.holds desk.old) (paths_of paths.now) (D.faults desk.old) (D.faults desk.new) file }

    // The other direction: the bytes settle the answer, but for want of memory and faults that were counted.
    ensures settled { Settles (D.holds desk.old) (paths_of paths.now) result }
    ensures complete { Completes (D.holds desk.old) (paths_of paths.now) (D.faults desk.old) (D.faults desk.new) result }

    // Each file up to the one that stops the reading is named once and read to its end, or up to the call that fails.
    ensures calls { MakesCalls (D.calls desk.old) (D.calls desk.new) (FilesCalls (paths_of paths.now) result) }

    ensures holds { (p : List ℕ) → D.holds desk.new p ≡ D.holds desk.old p }
    ensures later { (file : FileNo) → D.faults desk.old file ≤ D.faults desk.new file }

    // The files behind the one that stops the reading are left alone.
    ensures others { IfErr result (λ stop. (file other : FileNo) → Names stop file → place_of file < place_of other →
        (D.left desk.new other ≡ D.left desk.old other) × (D.faults desk.new other ≡ D.faults desk.old other)) }
{
    read_in_order(alloc, desk, paths)
}
