// The lines of a SEM almanac, in their order.
ghost use Rattle.std.specs.Prelude.{◌≡◌};

use crate::field::read_line;
use almanac_draft::{AlmanacLine, Begun};
use almanac_fields::Flight;
use raim_model::{AlmRecord, Angle, Dec, TextWhy};

/// What a line has: two lines of the whole almanac, and then eight for each record.
#[derive(Clone, Copy, Debug, PartialEq, Eq)]
pub enum SemLine {
    /// the count of records, and a name
    Count,
    /// the week, and the time of applicability in it
    WeekAndTime,
    Prn,
    Svn,
    Ura,
    /// eccentricity, inclination offset, rate of right ascension
    EccentricityInclinationRate,
    /// square root of the semi-major axis, right ascension, argument of perigee
    SqrtARightAscensionPerigee,
    /// mean anomaly, and two clock terms
    MeanAnomalyAndClock,
    Health,
    Configuration,
}

impl AlmanacLine for SemLine {
    ghost use Rattle.sem_text.specs.Sem.{sem_form};
    ghost use Rattle.sem_text.specs.SemLaws.{sem_is_form, sem_is_ranged};

    ghost form = { sem_form };

    fn first() -> SemLine {
        SemLine::Count
    }

    fn start() -> SemLine {
        SemLine::Prn
    }

    fn next(self) -> Option<SemLine> {
        match self {
            SemLine::Count => Some(SemLine::WeekAndTime),
            SemLine::WeekAndTime => Some(SemLine::Prn),
            SemLine::Prn => Some(SemLine::Svn),
            SemLine::Svn => Some(SemLine::Ura),
            SemLine::Ura => Some(SemLine::EccentricityInclinationRate),
            SemLine::EccentricityInclinationRate => Some(SemLine::SqrtARightAscensionPerigee),
            SemLine::SqrtARightAscensionPerigee => Some(SemLine::MeanAnomalyAndClock),
            SemLine::MeanAnomalyAndClock => Some(SemLine::Health),
            SemLine::Health => Some(SemLine::Configuration),
            SemLine::Configuration => None,
        }
    }

    fn begins(self) -> bool {
        matches!(self, SemLine::Prn)
    }

    fn names(self) -> bool {
        matches!(self, SemLine::Prn)
    }

    fn nothing() -> Begun {
        Begun {
            declared: None,
            time: 0,
            values: AlmRecord {
                prn: 1,
                health: 0,
                e: Dec::ZERO,
                toa_ms: 0,
                incl: Angle::Semi30(Dec::ZERO),
                rate: Angle::Semi(Dec::ZERO),
                sqrt_a: Dec::whole(false, 4000),
                omega0: Angle::Semi(Dec::ZERO),
                perigee: Angle::Semi(Dec::ZERO),
                m0: Angle::Semi(Dec::ZERO),
            },
        }
    }

    fn read(self, flight: Flight, begun: Begun, line: &[u8]) -> Result<Begun, TextWhy> {
        read_line(self, flight, begun, line)
    }

    ghost lawful = { sem_is_form };

    ghost ranged = { sem_is_ranged };
}
