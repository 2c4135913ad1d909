// Laws of blocks, the contract of a function that does nothing.
ghost use Rattle.fleet_run.specs.Laws.{HasOneBody, HasOneText, StandsAlone};

/// A block says what its own route says: four texts have one body (`body`), a fleet has one text (`text`), and two
/// fleets that agree in limits, almanacs, outages and route k have the same block k, whatever the other routes are and
/// whether they are refused (`alone`).
pub fn a_block_stands_alone()
    ensures body { HasOneBody }
    ensures text { HasOneText }
    ensures alone { StandsAlone }
{}
