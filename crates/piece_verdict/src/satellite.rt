// A satellite of an almanac, with its orbit.
ghost use Rattle.std.specs.Prelude.{◌≡◌, ◌<◌, ◌-◌, ◌^◌, ◌≤ℤ◌};
ghost use Rattle.fix_interval.specs.Vectors.{vector_ends, VectorBelow};
ghost use Rattle.orbit_laws.specs.Positions.{position_of};
ghost use Rattle.raim_model.specs.AlmanacRanges.{IsAlmRecord, IsApplicable};
ghost use Rattle.raim_model.specs.Usable.{is_usable};

use crate::usable::usable;
use almanac_orbit::{Orbit, position, prepare};
use fix_interval::Iv;
use raim_model::{AlmRecord, Outage};
use std::cell::Cell;
use std::marker::Model;

/// A satellite's record and its orbit. Contracts see it as the record.
#[derive(Drop)]
pub(crate) struct Satellite {
    rec: AlmRecord,
    orbit: Orbit,
    /// How often its position was worked out.
    positions: Cell<u64>,
}

impl Model for Satellite {
    ghost use Rattle.std.specs.Prelude.{◌≡◌};
    ghost use Rattle.raim_model.specs.declared.almanac.AlmRecord.{AlmRecord};

    ghost Value = { AlmRecord };

    ghost view = { λ s. s.rec };

    ghost use Rattle.piece_verdict.specs.KeptCases.{IsKeptSatellite};

    ghost invariant = { λ s. IsKeptSatellite s.rec s.orbit };
}

impl Satellite {
    /// The satellite of an accepted record.
    pub(crate) fn of(rec: &AlmRecord) -> Satellite
        requires { IsAlmRecord rec.now }
        ensures { result ≡ rec.now }
    {
        Satellite {
            rec: *rec,
            orbit: prepare(rec),
            positions: Cell::new(0),
        }
    }

    /// Its number.
    pub(crate) fn prn(&self) -> u8
        ensures { result ≡ self.now.prn }
    {
        self.rec.prn
    }

    /// The place of its number among marks, from 0.
    pub(crate) fn place(&self) -> usize
        ensures value { result ≡ self.now.prn - 1 }
        ensures small { result < 32 }
    {
        self.rec.prn as usize - 1
    }

    /// Whether it counts at the millisecond `t`.
    pub(crate) fn usable_at(&self, outages: &[Outage], t: i64) -> bool
        ensures { result ≡ is_usable outages.now t self.now }
    {
        usable(&self.rec, outages, t)
    }

    /// Where it is from the millisecond `first` to `last`.
    pub(crate) fn position(&self, first: i64, last: i64) -> [Iv; 3]
        requires order { first ≤ℤ last }
        requires first_applicable { IsApplicable self.now first }
        requires last_applicable { IsApplicable self.now last }
        ensures exact { vector_ends result ≡ position_of self.now first last }
        ensures bound { VectorBelow (vector_ends result) (2 ^ 46) }
    {
        self.positions.set(self.positions.get().wrapping_add(1));
        position(&self.orbit, first, last)
    }

    /// How often that was worked out, modulo 2^64.
    pub(crate) fn positions(&self) -> u64 {
        self.positions.get()
    }
}
