// The kinds of calls that are timed, by their names.

use crate::form_calls::FormCall;
use crate::halvings::Range;
use crate::interval_calls::IntervalCall;
use crate::receiver_calls::Side;

/// A kind of call.
#[derive(Clone, Copy)]
pub enum Kind {
    /// A call of `fix_interval`.
    Interval(IntervalCall),
    /// The sine and the cosine of turns.
    Sine,
    /// The sine and the cosine of an eccentric anomaly.
    Kepler,
    /// The place of a satellite by its almanac.
    Position,
    /// The test of slopes for fault detection.
    Detect,
    /// The test of slopes for fault exclusion.
    Exclude,
    /// The frame of a receiver.
    Frame,
    /// A look at a satellite.
    Look(Side),
    /// A call on forms of time.
    Form(FormCall),
    /// A range of time that is split.
    Halving(Range),
}

impl Kind {
    pub fn of(word: &str) -> Option<Kind> {
        match word {
            "mul" => Some(Kind::Interval(IntervalCall::Mul)),
            "sqr" => Some(Kind::Interval(IntervalCall::Sqr)),
            "div" => Some(Kind::Interval(IntervalCall::Div)),
            "sqrt" => Some(Kind::Interval(IntervalCall::Sqrt)),
            "decimal" => Some(Kind::Interval(IntervalCall::Decimal)),
            "sine" => Some(Kind::Sine),
            "kepler" => Some(Kind::Kepler),
            "position" => Some(Kind::Position),
            "detect" => Some(Kind::Detect),
            "exclude" => Some(Kind::Exclude),
            "frame" => Some(Kind::Frame),
            "look" => Some(Kind::Look(Side::Above)),
            "hidden_look" => Some(Kind::Look(Side::Beyond)),
            "form_product" => Some(Kind::Form(FormCall::Product)),
            "form_sine" => Some(Kind::Form(FormCall::Sine)),
            "form_position" => Some(Kind::Form(FormCall::Position)),
            "form_frame" => Some(Kind::Form(FormCall::Frame)),
            "island" => Some(Kind::Halving(Range::Island)),
            "alternating" => Some(Kind::Halving(Range::Alternating)),
            _ => None,
        }
    }

    pub fn name(self) -> &'static str {
        match self {
            Kind::Interval(IntervalCall::Mul) => "mul",
            Kind::Interval(IntervalCall::Sqr) => "sqr",
            Kind::Interval(IntervalCall::Div) => "div",
            Kind::Interval(IntervalCall::Sqrt) => "sqrt",
            Kind::Interval(IntervalCall::Decimal) => "decimal",
            Kind::Sine => "sine",
            Kind::Kepler => "kepler",
            Kind::Position => "position",
            Kind::Detect => "detect",
            Kind::Exclude => "exclude",
            Kind::Frame => "frame",
            Kind::Look(Side::Above) => "look",
            Kind::Look(Side::Beyond) => "hidden_look",
            Kind::Form(FormCall::Product) => "form_product",
            Kind::Form(FormCall::Sine) => "form_sine",
            Kind::Form(FormCall::Position) => "form_position",
            Kind::Form(FormCall::Frame) => "form_frame",
            Kind::Halving(Range::Island) => "island",
            Kind::Halving(Range::Alternating) => "alternating",
        }
    }
}
