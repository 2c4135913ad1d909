// The three kinds of verdict that a chart shows.
ghost use Rattle.std.specs.Prelude.{◌≡◌};
ghost use Rattle.report_chart.specs.Kinds.{kind_of, is_kind, has_kind, class_of, word_of};

use raim_model::{Run, Verdict};

#[derive(Clone, Copy)]
pub(crate) enum Kind {
    Available,
    Unavailable,
    Undecided,
}

impl Kind {
    // Of a verdict; an overflow, which no chart has, is as one that is undecided.
    pub(crate) fn of(verdict: Verdict) -> Kind
        ensures { result ≡ kind_of verdict }
    {
        match verdict {
            Verdict::Available => Kind::Available,
            Verdict::Unavailable(_) => Kind::Unavailable,
            Verdict::Undecided(_) => Kind::Undecided,
            Verdict::Overflow(_) => Kind::Undecided,
        }
    }

    fn is(self, other: Kind) -> bool
        ensures { result ≡ is_kind self other }
    {
        match (self, other) {
            (Kind::Available, Kind::Available) => true,
            (Kind::Unavailable, Kind::Unavailable) => true,
            (Kind::Undecided, Kind::Undecided) => true,
            _ => false,
        }
    }

    // Whether a run is of this kind.
    pub(crate) fn has(self, run: &Run) -> bool
        ensures { result ≡ has_kind self run.now }
    {
        self.is(Kind::of(run.verdict))
    }

    pub(crate) fn word(self) -> &'static [u8]
        ensures { result.now ≡ word_of self }
    {
        match self {
            Kind::Available => b"Available",
            Kind::Unavailable => b"Unavailable",
            Kind::Undecided => b"Undecided",
        }
    }

    // The class of its bars.
    pub(crate) fn class(self) -> &'static [u8]
        ensures { result.now ≡ class_of self }
    {
        match self {
            Kind::Available => b"a",
            Kind::Unavailable => b"u",
            Kind::Undecided => b"d",
        }
    }
}
