// Laws of almanacs of any format, each the contract of a function that does nothing.
ghost use Rattle.almanac_draft.specs.Laws.{MeansRecords, IsAccepted, SaysOrRefuses, SaysOnce};

use crate::line::AlmanacLine;

/// The lines of an accepted almanac that are not blank are those of the whole almanac and those of its
/// records, of distinct satellites, and each record is what its own lines say; and lines of which this
/// is true are accepted.
pub fn an_almanac_means_its_records<L: AlmanacLine>()
    ensures means { MeansRecords L.form }
    ensures accepted { IsAccepted L.form }
{}

/// Every text is accepted or refused as an almanac, and an accepted one says one list of records.
pub fn an_almanac_has_one_reading<L: AlmanacLine>()
    ensures some { SaysOrRefuses L.form }
    ensures once { SaysOnce L.form }
{}
