// Laws of SEM almanacs.
ghost use Rattle.sem_text.specs.Sem.{MeansRecords, IsAccepted, SaysOrRefuses, SaysOnce};

use crate::line::SemLine;

/// The lines of an accepted almanac that are not blank are two lines of the whole almanac and then eight
/// lines for each of as many records as the first line says, of distinct satellites, and each record is
/// what its own lines and the second line say; and lines of which this is true are accepted.
pub fn an_almanac_means_its_records()
    ensures means { MeansRecords }
    ensures accepted { IsAccepted }
{
    almanac_draft::an_almanac_means_its_records::<SemLine>();
}

/// Every text is accepted or refused as an almanac, and an accepted one says one list of records.
pub fn an_almanac_has_one_reading()
    ensures some { SaysOrRefuses }
    ensures once { SaysOnce }
{
    almanac_draft::an_almanac_has_one_reading::<SemLine>();
}
