// The cuts of a flight.
ghost use Rattle.std.specs.Prelude.{◌≡◌, ◌++◌, ◌∷◌, [], All, OnOk, IfOk};
ghost use Rattle.raim_model.specs.CaseCuts.{outage_times};
ghost use Rattle.raim_model.specs.Cuts.{IsCutTime};
ghost use Rattle.almanac_laws.specs.Handovers.{handovers_of};
ghost use Rattle.piece_verdict.specs.Cuts.{times_inside, waypoint_times, cut_times, AreCutTimes};

use almanac_choice::handovers;
use raim_model::{Outage, Span};
use route_interp::Route;
use std::alloc::{AllocError, Global};

/// Adds a time that is strictly inside the flight.
fn add_inside(times: &mut Vec<i64>, flight: &Span, time: i64) -> Result<(), AllocError>
    ensures { OnOk result (times.new.items ≡ times.old.items ++ times_inside flight.now (time ∷ [])) }
{
    if flight.first < time && time < flight.end {
        times.push(time)?;
    }
    Ok(())
}

/// Adds an outage's start and its end, those that are strictly inside the flight.
fn add_outage(times: &mut Vec<i64>, flight: &Span, outage: &Outage) -> Result<(), AllocError>
    ensures { OnOk result (times.new.items ≡ times.old.items ++ times_inside flight.now (outage_times outage.now)) }
{
    add_inside(times, flight, outage.start)?;
    if let Some(end) = outage.end {
        add_inside(times, flight, end)?;
    }
    Ok(())
}

/// Adds the handovers that are strictly inside the flight.
fn add_handovers(times: &mut Vec<i64>, flight: &Span, handovers: &[i64]) -> Result<(), AllocError>
    ensures { OnOk result (times.new.items ≡ times.old.items ++ times_inside flight.now handovers.now) }
{
    for time in handovers {
        add_inside(times, flight, *time)?;
    }
    Ok(())
}

/// The times of the waypoints.
fn waypoint_times_of(alloc: Global, route: &Route) -> Result<Vec<i64>, AllocError>
    ensures { IfOk result (λ times. times.items ≡ waypoint_times route.now) }
{
    let mut times = Vec::new(alloc);
    for k in 0..route.len() {
        times.push(route.at(k))?;
    }
    Ok(times)
}

/// The times that cut a flight, as they come.
fn cut_times_of(
    alloc: Global,
    route: &Route,
    outages: &[Outage],
    handovers: &[i64],
) -> Result<Vec<i64>, AllocError>
    ensures { IfOk result (λ times. times.items ≡ cut_times route.now outages.now handovers.now) }
{
    let flight = route.span();
    let mut times = waypoint_times_of(alloc, route)?;
    for outage in outages {
        add_outage(&mut times, &flight, outage)?;
    }
    add_handovers(&mut times, &flight, handovers)?;
    Ok(times)
}

/// The times that cut a flight, in rising order, each once, where almanacs have these times.
pub(crate) fn cuts_of(
    alloc: Global,
    route: &Route,
    outages: &[Outage],
    almanac_times: &[i64],
) -> Result<Vec<i64>, AllocError>
    requires { All IsCutTime almanac_times.now }
    ensures { IfOk result (λ cuts. AreCutTimes route.now outages.now (handovers_of almanac_times.now) cuts.items) }
{
    let handovers = handovers(alloc, almanac_times)?;
    let mut times = cut_times_of(alloc, route, outages, handovers.as_slice())?;
    times.sort_unstable();
    times.dedup();
    Ok(times)
}
