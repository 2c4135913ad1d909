// Laws of reports, the contract of a function that does nothing.
ghost use Rattle.report_text.specs.Laws.{HasOneText, HasOneMeaning, HasPrintableRuns, ReadsReports, AcceptsReports};

/// Printing and reading are inverse: runs have one report at most (`text`), a text is the report of one
/// list of readable runs at most (`meaning`), the report of readable runs is accepted as these (`reads`),
/// and a text that is accepted is the report of its runs, which are readable (`accepts`) and can be
/// printed again (`printable`).
pub fn printing_and_reading_are_inverse()
    ensures text { HasOneText }
    ensures meaning { HasOneMeaning }
    ensures reads { ReadsReports }
    ensures accepts { AcceptsReports }
    ensures printable { HasPrintableRuns }
{}
