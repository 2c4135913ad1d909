// The file of a report, read whole.
ghost use Rattle.std.specs.Prelude.{◌≡◌, ◌≤◌, ℕ, List, length, IfOk, IfErr, IfSome};
ghost use Rattle.raim_model.specs.declared.FileNo.{FileNo};
ghost use Rattle.raim_base.specs.Calls.{MakesCalls};
ghost use Rattle.raim_base.specs.Desks.{KeepsOthers};
ghost use Rattle.chart_run.specs.Files.{longest_report, FileStops, IsReadAs};

use crate::ChartStatus;
use raim_base::{Desk, ReadStop, read_up_to};
use raim_model::{FileNo, TextWhy};
use std::alloc::Global;

/// The most bytes of a file: eight mebibytes. A report of 65,536 runs has 5.3 million.
const LONGEST_REPORT: usize = 8_388_608;

// All bytes that a path holds.
pub(crate) fn read_file<D: Desk>(
    alloc: Global,
    desk: &mut D,
    path: &str,
) -> Result<Vec<u8>, ChartStatus>
    ensures ok { IfOk result (λ v. IfSome (D.holds desk.old path.now) (λ bytes. v.items ≡ bytes)) }
    ensures short { IfOk result (λ v. length v.items ≤ longest_report) }
    ensures cause { IfErr result (FileStops (D.holds desk.old path.now) (D.faults desk.old FileNo.Route) (D.faults desk.new FileNo.Route)) }
    ensures holds { (p : List ℕ) → D.holds desk.new p ≡ D.holds desk.old p }
    ensures later { D.faults desk.old FileNo.Route ≤ D.faults desk.new FileNo.Route }
    ensures others { KeepsOthers (D.left desk.old) (D.left desk.new) (D.faults desk.old) (D.faults desk.new) FileNo.Route }
    ensures calls { MakesCalls (D.calls desk.old) (D.calls desk.new) (IsReadAs path.now result) }
{
    match read_up_to(alloc, desk, FileNo::Route, path, LONGEST_REPORT) {
        Ok(bytes) => Ok(bytes),
        Err(ReadStop::Memory) => Err(ChartStatus::Memory),
        Err(ReadStop::Fault) => Err(ChartStatus::ReadFault),
        Err(ReadStop::TooLong) => Err(ChartStatus::Refused {
            line: 0,
            why: TextWhy::FileTooLong,
        }),
    }
}
