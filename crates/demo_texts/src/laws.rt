// Laws of the line of a demonstration, the contract of a function that does nothing.
ghost use Rattle.demo_texts.specs.Laws.{AreCountableWithinDay, AddUp};

/// The runs of a flight of a day at most can be counted (`countable`), and the milliseconds that are
/// available, unavailable and undecided add up to those of the flight (`total`).
pub fn milliseconds_add_up()
    ensures countable { AreCountableWithinDay }
    ensures total { AddUp }
{}
