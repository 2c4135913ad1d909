// The page of a chart.
ghost use Rattle.std.specs.Prelude.{IfOk, OnOk};
ghost use Rattle.report_chart.specs.Appended.{Appended};
ghost use Rattle.report_chart.specs.Chart.{IsChart};
ghost use Rattle.report_chart.specs.Page.{ShowsChart, IsPage};

use crate::chart::Chart;
use crate::fleet::push_rows;
use crate::flight::push_flight;
use crate::head::push_head;
use raim_model::OutOfMemory;
use std::alloc::{AllocError, Global};

fn push_chart(alloc: Global, text: &mut Vec<u8>, chart: &Chart) -> Result<(), AllocError>
    requires { IsChart chart.now }
    ensures { OnOk result (Appended (ShowsChart chart.now) text.old.items text.new.items) }
{
    match chart {
        Chart::Flight(runs) => push_flight(alloc, text, runs),
        Chart::Fleet(rows) => push_rows(alloc, text, rows),
    }
}

fn page(alloc: Global, chart: &Chart) -> Result<Vec<u8>, AllocError>
    requires { IsChart chart.now }
    ensures { IfOk result (λ v. IsPage chart.now v.items) }
{
    let mut text = Vec::new(alloc);
    push_head(&mut text)?;
    push_chart(alloc, &mut text, chart)?;
    Ok(text)
}

/// The page of a chart, one document of HTML in plain ASCII that asks nothing of any other place: of each
/// flight its first and its last time, a band with a bar for each run, the hours of UTC, the totals, and a
/// table of the runs that are not Available.
pub fn print_chart(alloc: Global, chart: &Chart) -> Result<Vec<u8>, OutOfMemory>
    requires { IsChart chart.now }
    ensures page { IfOk result (λ v. IsPage chart.now v.items) }
{
    match page(alloc, chart) {
        Ok(text) => Ok(text),
        Err(_) => Err(OutOfMemory),
    }
}
