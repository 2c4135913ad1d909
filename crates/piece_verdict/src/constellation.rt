// The satellites of an almanac, and of several.
ghost use Rattle.std.specs.Prelude.{◌≡◌, All, map, IfOk};
ghost use Rattle.raim_model.specs.AlmanacInForce.{time_of};
ghost use Rattle.raim_model.specs.AlmanacRanges.{IsAlmRecord};

use crate::satellite::Satellite;
use raim_model::{AlmRecord, Almanac};
use std::alloc::{AllocError, Global};
use std::marker::Model;

/// The satellites of an almanac, with their orbits, by rising PRN. Contracts see it as the list of their records.
#[derive(Drop)]
pub(crate) struct Constellation {
    satellites: Vec<Satellite>,
}

impl Model for Constellation {
    ghost use Rattle.std.specs.Prelude.{List};
    ghost use Rattle.raim_model.specs.declared.almanac.AlmRecord.{AlmRecord};

    ghost Value = { List AlmRecord };

    ghost view = { λ c. c.satellites.items };
}

impl Constellation {
    /// The satellites of the accepted records, in their order.
    fn of(alloc: Global, records: &[AlmRecord]) -> Result<Constellation, AllocError>
        requires { All IsAlmRecord records.now }
        ensures { IfOk result (λ c. c ≡ records.now) }
    {
        let mut satellites = Vec::new(alloc);
        for rec in records {
            satellites.push(Satellite::of(rec))?;
        }
        Ok(Constellation { satellites })
    }

    /// The satellites, in their order.
    pub(crate) fn satellites(&self) -> &[Satellite]
        ensures { result.now ≡ self.now }
    {
        self.satellites.as_slice()
    }

    /// How many of their positions were worked out, modulo 2^64.
    pub(crate) fn positions(&self) -> u64 {
        let mut sum: u64 = 0;
        for satellite in self.satellites() {
            sum = sum.wrapping_add(satellite.positions());
        }
        sum
    }
}

/// The constellations of some almanacs, in their order.
pub(crate) fn constellations_of(
    alloc: Global,
    almanacs: &[Almanac],
) -> Result<Vec<Constellation>, AllocError>
    requires { All (λ records. All IsAlmRecord records) almanacs.now }
    ensures { IfOk result (λ constellations. constellations.items ≡ almanacs.now) }
{
    let mut constellations = Vec::new(alloc);
    for almanac in almanacs {
        constellations.push(Constellation::of(alloc, almanac.records.as_slice())?)?;
    }
    Ok(constellations)
}

/// The time of an almanac: that of its first record, in milliseconds since the GPS epoch.
fn time(almanac: &Almanac) -> i64
    ensures { result ≡ time_of almanac.now }
{
    match almanac.records.as_slice() {
        [first, ..] => first.toa_ms,
        [] => 0,
    }
}

/// The times of some almanacs, in their order.
pub(crate) fn times_of(alloc: Global, almanacs: &[Almanac]) -> Result<Vec<i64>, AllocError>
    ensures { IfOk result (λ times. times.items ≡ map time_of almanacs.now) }
{
    let mut times = Vec::new(alloc);
    for almanac in almanacs {
        times.push(time(almanac))?;
    }
    Ok(times)
}
