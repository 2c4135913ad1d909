// The four files where nothing fails.
ghost use Rattle.std.specs.Prelude.{◌≢◌, Err};
ghost use Rattle.raim_model.specs.declared.FileNo.{FileNo};

use crate::{FlightFiles, FlightPaths, Stop, read_files};
use raim_base::SureDesk;
use std::alloc::Global;

/// `read_files` over a desk that never fails: as a fault is answered only where a count rose, none is.
pub fn read_files_surely(
    alloc: Global,
    desk: &mut SureDesk,
    paths: &FlightPaths,
) -> Result<FlightFiles, Stop>
    ensures no_fault { (file : FileNo) → result ≢ Err (Stop.Fault file) }
{
    read_files(alloc, desk, paths)
}
