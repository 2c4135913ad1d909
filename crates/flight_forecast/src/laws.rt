// Laws of forecasts, each the contract of a function that does nothing.
ghost use Rattle.std.specs.Prelude.{ℤ, ◌<ℤ◌, List};
ghost use Rattle.raim_model.specs.declared.verdict.Run.{Run};
ghost use Rattle.raim_model.specs.declared.verdict.Verdict.{Verdict};
ghost use Rattle.raim_model.specs.declared.span.Span.{Span};
ghost use Rattle.raim_model.specs.CaseRanges.{IsCase};
ghost use Rattle.raim_model.specs.Route.{flight_of};
ghost use Rattle.raim_model.specs.Runs.{AreRuns};
ghost use Rattle.raim_model.specs.Solution.{Case};
ghost use Rattle.time_laws.specs.Answers.{HasAnswer};
ghost use Rattle.case_laws.specs.PieceVerdict.{piece_verdict_of};
ghost use Rattle.flight_forecast.specs.InOrder.{CoverInOrder};

/// The runs of a span of time cover it in order.
pub fn runs_cover_a_span_in_order()
    ensures { (w : ℤ → ℤ → Verdict) (span : Span) (runs : List Run) → span.first <ℤ span.end → AreRuns w span.first span.end runs → CoverInOrder span runs }
{}

/// A flight has its runs, or too many of them, or a first millisecond that overflows.
pub fn a_flight_has_an_answer()
    ensures { (c : Case) → IsCase c → HasAnswer (piece_verdict_of c) (flight_of c.route).first (flight_of c.route).end }
{}
