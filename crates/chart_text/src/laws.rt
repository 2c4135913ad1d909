// Laws of the texts of charts, the contracts of functions that do nothing.
ghost use Rattle.chart_text.specs.Laws.{SaysOneThing, RefusesNoneShown, RefusesOnce};
ghost use Rattle.chart_text.specs.Printed.{ReadsFleets};

/// A text has one meaning: it says one thing at most (`one`), a text that says something is not refused (`either`), and a
/// text is refused at one line for one cause at most (`once`).
pub fn a_chart_text_has_one_reading()
    ensures one { SaysOneThing }
    ensures either { RefusesNoneShown }
    ensures once { RefusesOnce }
{}

/// The text of a fleet whose blocks have the bodies that a fleet prints, under whatever leap seconds, says something that
/// can be shown, so `read_chart` accepts it: where each flight is one of a day at most, and each number of a refusal is of
/// 32 bits.
pub fn what_a_fleet_prints_is_read()
    ensures { ReadsFleets }
{}
