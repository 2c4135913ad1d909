// What is shown of the routes of a fleet.
ghost use Rattle.std.specs.Prelude.{◌≡◌, ◌++◌, All, OnOk};
ghost use Rattle.report_chart.specs.Appended.{Appended};
ghost use Rattle.report_chart.specs.Chart.{IsRow};
ghost use Rattle.report_chart.specs.Page.{heading, ShowsRow, ShowsRows};

use crate::chart::Row;
use crate::flight::push_flight;
use crate::push::{push, push_number};
use crate::refused::push_reason_line;
use std::alloc::{AllocError, Global};

fn push_heading(text: &mut Vec<u8>, number: u64) -> Result<(), AllocError>
    ensures { OnOk result (text.new.items ≡ text.old.items ++ heading number) }
{
    push(text, b"<h2>Route ")?;
    push_number(text, number)?;
    push(text, b"</h2>\n")
}

fn push_row(alloc: Global, text: &mut Vec<u8>, row: &Row) -> Result<(), AllocError>
    requires { IsRow row.now }
    ensures { OnOk result (Appended (ShowsRow row.now) text.old.items text.new.items) }
{
    match row {
        Row::Flight(runs) => push_flight(alloc, text, runs),
        Row::Reason(line) => push_reason_line(text, line),
    }
}

pub(crate) fn push_rows(alloc: Global, text: &mut Vec<u8>, rows: &[Row]) -> Result<(), AllocError>
    requires { All IsRow rows.now }
    ensures { OnOk result (Appended (ShowsRows 1 rows.now) text.old.items text.new.items) }
{
    for k in 0..rows.len() {
        push_heading(text, k as u64 + 1)?;
        push_row(alloc, text, &rows[k])?;
    }
    Ok(())
}
