// Laws of outages and their texts, the contract of a function that does nothing.
ghost use Rattle.outage_notice.specs.Laws.{HaveOneText, HasOneMeaning, ReadsLists, ArePrintedAgain};

/// Printing and reading are inverse: outages have one text at most (`text`), a text lists one list of
/// readable outages at most (`meaning`), the text of readable outages is read as these (`reads`), and
/// outages that were read are readable and have a text (`printable`).
pub fn printing_and_reading_are_inverse()
    ensures text { HaveOneText }
    ensures meaning { HasOneMeaning }
    ensures reads { ReadsLists }
    ensures printable { ArePrintedAgain }
{}
