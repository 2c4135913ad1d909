// The files of a fleet, each read whole.
ghost use Rattle.std.specs.Prelude.{◌≡◌, ◌≤◌, ℕ, List, length, IfOk, IfErr, IfSome};
ghost use Rattle.raim_model.specs.declared.FileNo.{FileNo};
ghost use Rattle.raim_base.specs.MemDeskState.{Each};
ghost use Rattle.raim_base.specs.Sizes.{longest_file};
ghost use Rattle.flight_files.specs.Paths.{paths_of};
ghost use Rattle.fleet_run.specs.Causes.{ReadingStops};
ghost use Rattle.fleet_run.specs.Files.{IsShort, AreRead, FileStops};
ghost use Rattle.fleet_run.specs.Texts.{texts_of, texts_read};

use crate::texts::FleetTexts;
use flight_files::FlightPaths;
use raim_base::{Desk, ReadStop, read_whole};
use raim_model::{FileNo, TextWhy};
use raim_run::Status;
use std::alloc::Global;

// The bytes of the four files of a fleet.
#[derive(Drop)]
pub(crate) struct FleetFiles {
    pub(crate) limits: Vec<u8>,
    pub(crate) routes: Vec<u8>,
    pub(crate) outages: Vec<u8>,
    pub(crate) almanac: Vec<u8>,
}

// Their texts.
pub(crate) fn texts_in(files: &FleetFiles) -> FleetTexts<'_>
    ensures { texts_of result ≡ texts_read files.now }
{
    FleetTexts {
        limits: files.limits.as_slice(),
        almanac: files.almanac.as_slice(),
        outages: files.outages.as_slice(),
        routes: files.routes.as_slice(),
    }
}

// All bytes of a file.
fn read_file<D: Desk>(
    alloc: Global,
    desk: &mut D,
    file: FileNo,
    path: &str,
) -> Result<Vec<u8>, Status>
    ensures ok { IfOk result (λ v. IfSome (D.holds desk.old path.now) (λ bytes. bytes ≡ v.items)) }
    ensures short { IfOk result (λ v. length v.items ≤ longest_file) }
    ensures cause { IfErr result (FileStops file (D.holds desk.old path.now) (D.faults desk.old file) (D.faults desk.new file)) }
    ensures holds { (p : List ℕ) → D.holds desk.new p ≡ D.holds desk.old p }
    ensures later { (other : FileNo) → D.faults desk.old other ≤ D.faults desk.new other }
{
    match read_whole(alloc, desk, file, path) {
        Ok(bytes) => Ok(bytes),
        Err(ReadStop::Memory) => Err(Status::Memory),
        Err(ReadStop::Fault) => Err(Status::ReadFault { file }),
        Err(ReadStop::TooLong) => Err(Status::Refused {
            file,
            line: 0,
            why: TextWhy::FileTooLong,
        }),
    }
}

// The four files, each read to its end before the next is named.
pub(crate) fn read_fleet<D: Desk>(
    alloc: Global,
    desk: &mut D,
    paths: &FlightPaths,
) -> Result<FleetFiles, Status>
    ensures ok { IfOk result (λ files. AreRead (D.holds desk.old) (paths_of paths.now)
        (record { limits = files.limits.items; almanac = files.almanac.items; outages = files.outages.items; route = files.routes.items })) }
    ensures cause { IfErr result (ReadingStops (D.holds desk.old) (paths_of paths.now) (D.faults desk.old) (D.faults desk.new)) }
    ensures holds { (p : List ℕ) → D.holds desk.new p ≡ D.holds desk.old p }
    ensures later { (file : FileNo) → D.faults desk.old file ≤ D.faults desk.new file }
{
    let limits = match read_file(alloc, desk, FileNo::Limits, paths.limits) {
        Ok(bytes) => bytes,
        Err(status) => return Err(status),
    };
    let routes = match read_file(alloc, desk, FileNo::Route, paths.route) {
        Ok(bytes) => bytes,
        Err(status) => return Err(status),
    };
    let outages = match read_file(alloc, desk, FileNo::Outages, paths.outages) {
        Ok(bytes) => bytes,
        Err(status) => return Err(status),
    };
    match read_file(alloc, desk, FileNo::Almanac, paths.almanac) {
        Ok(almanac) => Ok(FleetFiles {
            limits,
            routes,
            outages,
            almanac,
        }),
        Err(status) => Err(status),
    }
}
