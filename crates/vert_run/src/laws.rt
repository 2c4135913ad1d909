// What the answer to the words of `raim_vert` says, in the words of the vertical verdicts.
ghost use Rattle.vert_run.specs.Headline.{TellsVertical, OverflowsVertically, HasTooManyVertically};

/// A text that answers the words of `raim_vert` says the vertical verdicts of the flight under the vertical alert limit that was
/// given, an overflow is one of the written vertical verdict, and so are too many runs.
pub fn vertical_answers_say_what_is_so()
    ensures answer { TellsVertical }
    ensures overflow { OverflowsVertically }
    ensures too_many { HasTooManyVertically }
{}
