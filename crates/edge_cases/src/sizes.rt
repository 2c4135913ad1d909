// A report of the greatest size that its format allows: a call that gives up at a smaller one fails here.

use crate::charts::report_of_many;
use report_text::{print_report, read_report};
use std::alloc::Global;
use std::test::Fail;

/// A report as it is printed after it was read.
fn printed_again(alloc: Global, text: &[u8]) -> Result<Vec<u8>, Fail> {
    let runs = match read_report(alloc, text, 0) {
        Ok(runs) => runs,
        Err(_) => return Err(Fail::from("not read")),
    };
    match print_report(alloc, runs.as_slice(), 0) {
        Ok(printed) => Ok(printed),
        Err(_) => Err(Fail::from("no memory")),
    }
}

#[test]
fn a_report_of_65536_runs_is_read_and_printed(rt: HostRuntime) -> Result<(), Fail> {
    let alloc = rt.alloc();
    let text = report_of_many(alloc)?;
    let printed = printed_again(alloc, text.as_slice())?;
    assert!(rt; printed.as_slice() == text.as_slice());
    Ok(())
}
