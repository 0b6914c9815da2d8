// A study worked by hand.
ghost use Rattle.sequence_network.specs.Worked.{AtOrderTwo};

/// The exact impedance at order 2 of a bus with a source, two loads and a bank, worked by hand.
pub fn impedance_by_hand()
    ensures law { AtOrderTwo }
{}
