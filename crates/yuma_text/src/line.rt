// The lines of a YUMA record, in their order.
ghost use Rattle.std.specs.Prelude.{◌≡◌};
ghost use Rattle.yuma_text.specs.Lines as lines;

use crate::field::read_line;
use almanac_draft::{AlmanacLine, Begun};
use almanac_fields::Flight;
use raim_model::{AlmRecord, Angle, Dec, TextWhy};

/// What a line of a record has. An almanac has no other lines.
#[derive(Clone, Copy, Debug, PartialEq, Eq)]
pub enum YumaLine {
    Title,
    Prn,
    Health,
    Eccentricity,
    TimeInWeek,
    Inclination,
    RateOfRightAscension,
    SqrtA,
    RightAscension,
    ArgumentOfPerigee,
    MeanAnomaly,
    Af0,
    Af1,
    Week,
}

impl YumaLine {
    // How the label begins, in lower case and without blanks. A title has none.
    pub(crate) fn label(self) -> &'static [u8]
        ensures { result.now ≡ lines.label_of self }
    {
        match self {
            YumaLine::Title => b"",
            YumaLine::Prn => b"id",
            YumaLine::Health => b"health",
            YumaLine::Eccentricity => b"eccentricity",
            YumaLine::TimeInWeek => b"timeofapplicability",
            YumaLine::Inclination => b"orbitalinclination",
            YumaLine::RateOfRightAscension => b"rateofrightascen",
            YumaLine::SqrtA => b"sqrt(a)",
            YumaLine::RightAscension => b"rightascen",
            YumaLine::ArgumentOfPerigee => b"argumentofperigee",
            YumaLine::MeanAnomaly => b"meananom",
            YumaLine::Af0 => b"af0",
            YumaLine::Af1 => b"af1",
            YumaLine::Week => b"week",
        }
    }
}

impl AlmanacLine for YumaLine {
    ghost use Rattle.yuma_text.specs.Yuma.{yuma_form};
    ghost use Rattle.yuma_text.specs.YumaLaws.{yuma_is_form, yuma_is_ranged};

    ghost form = { yuma_form };

    fn first() -> YumaLine {
        YumaLine::Title
    }

    fn start() -> YumaLine {
        YumaLine::Title
    }

    fn next(self) -> Option<YumaLine> {
        match self {
            YumaLine::Title => Some(YumaLine::Prn),
            YumaLine::Prn => Some(YumaLine::Health),
            YumaLine::Health => Some(YumaLine::Eccentricity),
            YumaLine::Eccentricity => Some(YumaLine::TimeInWeek),
            YumaLine::TimeInWeek => Some(YumaLine::Inclination),
            YumaLine::Inclination => Some(YumaLine::RateOfRightAscension),
            YumaLine::RateOfRightAscension => Some(YumaLine::SqrtA),
            YumaLine::SqrtA => Some(YumaLine::RightAscension),
            YumaLine::RightAscension => Some(YumaLine::ArgumentOfPerigee),
            YumaLine::ArgumentOfPerigee => Some(YumaLine::MeanAnomaly),
            YumaLine::MeanAnomaly => Some(YumaLine::Af0),
            YumaLine::Af0 => Some(YumaLine::Af1),
            YumaLine::Af1 => Some(YumaLine::Week),
            YumaLine::Week => None,
        }
    }

    fn begins(self) -> bool {
        matches!(self, YumaLine::Title)
    }

    fn names(self) -> bool {
        matches!(self, YumaLine::Prn)
    }

    fn nothing() -> Begun {
        Begun {
            declared: None,
            time: 0,
            values: AlmRecord {
                prn: 1,
                health: 0,
                e: Dec::ZERO,
                toa_ms: 0,
                incl: Angle::Rad(Dec::ZERO),
                rate: Angle::Rad(Dec::ZERO),
                sqrt_a: Dec::whole(false, 4000),
                omega0: Angle::Rad(Dec::ZERO),
                perigee: Angle::Rad(Dec::ZERO),
                m0: Angle::Rad(Dec::ZERO),
            },
        }
    }

    fn read(self, flight: Flight, begun: Begun, line: &[u8]) -> Result<Begun, TextWhy> {
        read_line(self, flight, begun, line)
    }

    ghost lawful = { yuma_is_form };

    ghost ranged = { yuma_is_ranged };
}
