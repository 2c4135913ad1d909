// One file of a prediction, named, read to its end, and read as what it says.
ghost use Rattle.std.specs.Prelude.{◌≡◌, ◌≤◌, ℕ, List, length, IfOk, IfErr, IfSome};
ghost use Rattle.raim_model.specs.declared.FileNo.{FileNo};
ghost use Rattle.raim_model.specs.Span.{IsFlight};
ghost use Rattle.raim_model.specs.Ranges.{IsLimits, AreOutages, IsRoute};
ghost use Rattle.raim_model.specs.AlmanacRanges.{AreAlmanacs};
ghost use Rattle.raim_base.specs.Calls.{MakesCalls};
ghost use Rattle.raim_base.specs.Desks.{KeepsOthers};
ghost use Rattle.raim_base.specs.Sizes.{longest_file};
ghost use Rattle.text_lines.specs.Reading.{Refuses};
ghost use Rattle.limits_text.specs.Limits.{limits_lines};
ghost use Rattle.limits_text.specs.Answers.{SayLimits};
ghost use Rattle.route_interp.specs.Routes.{route_lines};
ghost use Rattle.route_interp.specs.Answers.{SayWaypoints, AreInstants};
ghost use Rattle.outage_notice.specs.Outages.{outage_lines};
ghost use Rattle.outage_notice.specs.Answers.{SayOutages};
ghost use Rattle.alm_reader.specs.Almanacs.{SayAlmanacs, RefusesAlmanacs};
ghost use Rattle.flight_files.specs.Files.{HasLines};
ghost use Rattle.flight_files.specs.Stops.{FileCause, RefusesNothing};
ghost use Rattle.flight_files.specs.Calls.{FileCalls};

use crate::Stop;
use alm_reader::AlmanacReader;
use limits_text::read_limits;
use outage_notice::read_outages;
use raim_base::{Desk, ReadStop, feed_lines, read_whole};
use raim_model::{Almanac, FileNo, Limits, Outage, Refusal, Span};
use route_interp::{Route, read_route};
use std::alloc::Global;

// All bytes of a file.
fn read_bytes<D: Desk>(
    alloc: Global,
    desk: &mut D,
    file: FileNo,
    path: &str,
) -> Result<Vec<u8>, Stop>
    ensures ok { IfOk result (λ v. IfSome (D.holds desk.old path.now) (λ bytes. v.items ≡ bytes)) }
    ensures short { IfOk result (λ v. length v.items ≤ longest_file) }
    ensures cause { IfErr result (FileCause file (D.holds desk.old path.now) (D.faults desk.old file) (D.faults desk.new file) RefusesNothing) }
    ensures holds { (p : List ℕ) → D.holds desk.new p ≡ D.holds desk.old p }
    ensures later { D.faults desk.old file ≤ D.faults desk.new file }
    ensures others { KeepsOthers (D.left desk.old) (D.left desk.new) (D.faults desk.old) (D.faults desk.new) file }
    ensures calls { MakesCalls (D.calls desk.old) (D.calls desk.new) (FileCalls file path.now result) }
{
    match read_whole(alloc, desk, file, path) {
        Ok(bytes) => Ok(bytes),
        Err(ReadStop::Memory) => Err(Stop::Memory),
        Err(ReadStop::Fault) => Err(Stop::Fault { file }),
        Err(ReadStop::TooLong) => Err(Stop::TooLong { file }),
    }
}

// The limits.
pub(crate) fn read_limits_file<D: Desk>(
    alloc: Global,
    desk: &mut D,
    path: &str,
) -> Result<Limits, Stop>
    ensures accepted { IfOk result (λ limits. HasLines (D.holds desk.old path.now) (λ lines. SayLimits lines limits)) }
    ensures ranges { IfOk result IsLimits }
    ensures cause { IfErr result (FileCause FileNo.Limits (D.holds desk.old path.now) (D.faults desk.old FileNo.Limits) (D.faults desk.new FileNo.Limits) (Refuses limits_lines)) }
    ensures holds { (p : List ℕ) → D.holds desk.new p ≡ D.holds desk.old p }
    ensures later { D.faults desk.old FileNo.Limits ≤ D.faults desk.new FileNo.Limits }
    ensures others { KeepsOthers (D.left desk.old) (D.left desk.new) (D.faults desk.old) (D.faults desk.new) FileNo.Limits }
    ensures calls { MakesCalls (D.calls desk.old) (D.calls desk.new) (FileCalls FileNo.Limits path.now result) }
{
    let file = FileNo::Limits;
    let bytes = match read_bytes(alloc, desk, file, path) {
        Ok(bytes) => bytes,
        Err(stop) => return Err(stop),
    };
    match read_limits(alloc, &bytes) {
        Ok(limits) => Ok(limits),
        Err(Refusal::Memory) => Err(Stop::Memory),
        Err(Refusal::Text(fault)) => Err(Stop::Refused {
            file,
            line: fault.line,
            why: fault.why,
        }),
    }
}

// The route, whose times have these leap seconds.
pub(crate) fn read_route_file<D: Desk>(
    alloc: Global,
    desk: &mut D,
    path: &str,
    leap: u8,
) -> Result<Route, Stop>
    ensures accepted { IfOk result (λ route. HasLines (D.holds desk.old path.now) (λ lines. SayWaypoints leap lines route)) }
    ensures ranges { IfOk result IsRoute }
    ensures instants { IfOk result (AreInstants leap) }
    ensures cause { IfErr result (FileCause FileNo.Route (D.holds desk.old path.now) (D.faults desk.old FileNo.Route) (D.faults desk.new FileNo.Route) (Refuses (route_lines leap))) }
    ensures holds { (p : List ℕ) → D.holds desk.new p ≡ D.holds desk.old p }
    ensures later { D.faults desk.old FileNo.Route ≤ D.faults desk.new FileNo.Route }
    ensures others { KeepsOthers (D.left desk.old) (D.left desk.new) (D.faults desk.old) (D.faults desk.new) FileNo.Route }
    ensures calls { MakesCalls (D.calls desk.old) (D.calls desk.new) (FileCalls FileNo.Route path.now result) }
{
    let file = FileNo::Route;
    let bytes = match read_bytes(alloc, desk, file, path) {
        Ok(bytes) => bytes,
        Err(stop) => return Err(stop),
    };
    match read_route(alloc, &bytes, leap) {
        Ok(route) => Ok(route),
        Err(Refusal::Memory) => Err(Stop::Memory),
        Err(Refusal::Text(fault)) => Err(Stop::Refused {
            file,
            line: fault.line,
            why: fault.why,
        }),
    }
}

// The outages, whose times have these leap seconds.
pub(crate) fn read_outages_file<D: Desk>(
    alloc: Global,
    desk: &mut D,
    path: &str,
    leap: u8,
) -> Result<Vec<Outage>, Stop>
    ensures accepted { IfOk result (λ outages. HasLines (D.holds desk.old path.now) (λ lines. SayOutages leap lines outages.items)) }
    ensures ranges { IfOk result (λ outages. AreOutages outages.items) }
    ensures cause { IfErr result (FileCause FileNo.Outages (D.holds desk.old path.now) (D.faults desk.old FileNo.Outages) (D.faults desk.new FileNo.Outages) (Refuses (outage_lines leap))) }
    ensures holds { (p : List ℕ) → D.holds desk.new p ≡ D.holds desk.old p }
    ensures later { D.faults desk.old FileNo.Outages ≤ D.faults desk.new FileNo.Outages }
    ensures others { KeepsOthers (D.left desk.old) (D.left desk.new) (D.faults desk.old) (D.faults desk.new) FileNo.Outages }
    ensures calls { MakesCalls (D.calls desk.old) (D.calls desk.new) (FileCalls FileNo.Outages path.now result) }
{
    let file = FileNo::Outages;
    let bytes = match read_bytes(alloc, desk, file, path) {
        Ok(bytes) => bytes,
        Err(stop) => return Err(stop),
    };
    match read_outages(alloc, &bytes, leap) {
        Ok(outages) => Ok(outages),
        Err(Refusal::Memory) => Err(Stop::Memory),
        Err(Refusal::Text(fault)) => Err(Stop::Refused {
            file,
            line: fault.line,
            why: fault.why,
        }),
    }
}

// The almanacs of a flight, whose file is fed to their reader as it is read.
pub(crate) fn read_almanac_file<D: Desk>(
    alloc: Global,
    desk: &mut D,
    path: &str,
    flight: Span,
) -> Result<Vec<Almanac>, Stop>
    requires { IsFlight flight }
    ensures accepted { IfOk result (λ almanacs. HasLines (D.holds desk.old path.now) (λ lines. SayAlmanacs flight lines almanacs.items)) }
    ensures ranges { IfOk result (λ almanacs. AreAlmanacs flight almanacs.items) }
    ensures cause { IfErr result (FileCause FileNo.Almanac (D.holds desk.old path.now) (D.faults desk.old FileNo.Almanac) (D.faults desk.new FileNo.Almanac) (RefusesAlmanacs flight)) }
    ensures holds { (p : List ℕ) → D.holds desk.new p ≡ D.holds desk.old p }
    ensures later { D.faults desk.old FileNo.Almanac ≤ D.faults desk.new FileNo.Almanac }
    ensures others { KeepsOthers (D.left desk.old) (D.left desk.new) (D.faults desk.old) (D.faults desk.new) FileNo.Almanac }
    ensures calls { MakesCalls (D.calls desk.old) (D.calls desk.new) (FileCalls FileNo.Almanac path.now result) }
{
    let file = FileNo::Almanac;
    let Ok(mut reader) = AlmanacReader::new(alloc, flight) else {
        return Err(Stop::Memory);
    };
    match feed_lines(alloc, desk, file, path, &mut reader) {
        Ok(()) => {}
        Err(ReadStop::Memory) => return Err(Stop::Memory),
        Err(ReadStop::Fault) => return Err(Stop::Fault { file }),
        Err(ReadStop::TooLong) => return Err(Stop::TooLong { file }),
    }
    match reader.finish() {
        Ok(almanacs) => Ok(almanacs),
        Err(fault) => Err(Stop::Refused {
            file,
            line: fault.line,
            why: fault.why,
        }),
    }
}
