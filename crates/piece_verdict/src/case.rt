// A case: what a flight's availability is judged by.
ghost use Rattle.std.specs.Prelude.{◌≡◌, IfOk};
ghost use Rattle.raim_model.specs.AlmanacRanges.{AreAlmanacs};
ghost use Rattle.raim_model.specs.CaseCuts.{CutsFlight, MayBeJudged};
ghost use Rattle.raim_model.specs.Cuts.{AreCuts};
ghost use Rattle.raim_model.specs.Ranges.{IsLimits, AreOutages};
ghost use Rattle.raim_model.specs.Route.{flight_of};
ghost use Rattle.fix_interval.specs.Intervals.{ends};
ghost use Rattle.case_laws.specs.SightOver.{mask_of};
ghost use Rattle.piece_verdict.specs.Cases.{case_of};

use crate::constellation::{Constellation, constellations_of, times_of};
use crate::cuts::cuts_of;
use fix_interval::Iv;
use raim_model::{Almanac, Limits, OutOfMemory, Outage};
use route_interp::Route;
use std::alloc::Global;
use std::marker::Model;
use trig_enclose::sin_cos;

/// The limits, the almanacs, the outages and the route of a flight. Contracts see the case of the model that these are.
#[derive(Drop)]
pub struct Case {
    pub(crate) limits: Limits,
    pub(crate) constellations: Vec<Constellation>,
    /// The times of the almanacs, in milliseconds since the GPS epoch.
    pub(crate) times: Vec<i64>,
    pub(crate) outages: Vec<Outage>,
    pub(crate) route: Route,
    /// The sine of the mask, in units of 2^-38.
    pub(crate) mask: Iv,
}

impl Model for Case {
    ghost use Rattle.raim_model.specs.Solution.{Case as FlightCase};
    ghost use Rattle.piece_verdict.specs.Cases.{case_of};
    ghost use Rattle.piece_verdict.specs.KeptCases.{IsKeptCase};

    ghost Value = { FlightCase };

    ghost view = { λ c. case_of c.limits c.constellations.items c.outages.items c.route };

    ghost invariant = { λ c. IsKeptCase (case_of c.limits c.constellations.items c.outages.items c.route) c.times.items c.mask };
}

/// The sine of the mask.
fn mask(limits: &Limits) -> Iv
    requires { IsLimits limits.now }
    ensures { ends result ≡ mask_of limits.now }
{
    sin_cos(Iv::from_dec_over(&limits.mask, 360)).0
}

impl Case {
    /// The case of limits, almanacs, outages and a route, as accepted files give them: one to eight almanacs, in the order of
    /// their file, whose times are within 90 days of the flight.
    pub fn prepare(
        alloc: Global,
        limits: Limits,
        almanacs: Vec<Almanac>,
        outages: Vec<Outage>,
        route: Route,
    ) -> Result<Case, OutOfMemory>
        requires limits { IsLimits limits }
        requires almanacs { AreAlmanacs (flight_of route) almanacs.items }
        requires outages { AreOutages outages.items }
        ensures { IfOk result (λ c. c ≡ case_of limits almanacs.items outages.items route) }
    {
        let _points = route.len();
        let mask = mask(&limits);
        let Ok(constellations) = constellations_of(alloc, almanacs.as_slice()) else {
            return Err(OutOfMemory);
        };
        let Ok(times) = times_of(alloc, almanacs.as_slice()) else {
            return Err(OutOfMemory);
        };
        Ok(Case {
            limits,
            constellations,
            times,
            outages,
            route,
            mask,
        })
    }

    /// The cuts of the flight: its first millisecond, its end, and strictly between them the times of waypoints, the starts and
    /// the ends of outages and the handovers between almanacs, in rising order, each once.
    pub fn cuts(&self, alloc: Global) -> Result<Vec<i64>, OutOfMemory>
        ensures cuts { IfOk result (λ cuts. CutsFlight self.now cuts.items) }
        // each root piece between them may be judged
        ensures root_pieces { IfOk result (λ cuts. AreCuts (MayBeJudged self.now) cuts.items) }
    {
        match cuts_of(
            alloc,
            &self.route,
            self.outages.as_slice(),
            self.times.as_slice(),
        ) {
            Ok(cuts) => Ok(cuts),
            Err(_) => Err(OutOfMemory),
        }
    }

    /// How many positions of satellites were worked out so far, modulo 2^64: the work of all judgements. Each satellite
    /// counts its own in a cell, of which no clause can speak.
    pub fn positions(&self) -> u64 {
        let mut sum: u64 = 0;
        for constellation in self.constellations.as_slice() {
            sum = sum.wrapping_add(constellation.positions());
        }
        sum
    }
}
