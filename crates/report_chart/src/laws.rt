// Laws of pages, the contracts of functions that do nothing.
ghost use Rattle.report_chart.specs.Laws.{BarsFillTheBand, WidthsAddUp, PlacesAreShares, HoursAreWhole, TableHasGaps, LongestIsLongest, RunsAddUp, TimesAddUp, ReasonsArePlain, PagesAreAscii, HasOnePage};

/// The bars of a flight fill its band: the first starts at 0, each starts where the one before it ends, the
/// last ends at 100,000 (`fill`), their widths add up to that (`widths`), and each place is the time's share
/// of the flight, rounded down to a unit (`shares`).
pub fn bars_lie_side_by_side()
    ensures fill { BarsFillTheBand }
    ensures widths { WidthsAddUp }
    ensures shares { PlacesAreShares }
{}

/// The hours below a band are the whole hours of UTC at or after the flight's first time and at or before
/// its end.
pub fn hours_are_whole()
    ensures { HoursAreWhole }
{}

/// A run is in the table exactly where it is in the flight and is not Available (`gaps`), and the rows that
/// are marked are the longest (`longest`).
pub fn the_table_has_what_is_not_available()
    ensures gaps { TableHasGaps }
    ensures longest { LongestIsLongest }
{}

/// The runs of the three kinds are as many as the flight has (`runs`), and last as long as the flight
/// (`times`).
pub fn totals_add_up()
    ensures runs { RunsAddUp }
    ensures times { TimesAddUp }
{}

/// Whatever the bytes of a reason are, they are shown as text: printable ASCII without `<`, `>` and `"`.
pub fn reasons_are_plain()
    ensures { ReasonsArePlain }
{}

/// A page is ASCII.
pub fn pages_are_ascii()
    ensures { PagesAreAscii }
{}

/// A chart has one page at most.
pub fn a_chart_has_one_page()
    ensures { HasOnePage }
{}
