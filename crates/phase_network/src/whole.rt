// What is true of every network of three phases, whatever its size.
ghost use Rattle.phase_network.specs.Built.{PhasesAreWhole};

/// The network of three phases of a lawful study is whole: its taps are at its nodes, its groups of three are complete, and no two have one
/// number.
pub fn phases_are_whole()
    ensures law { PhasesAreWhole }
{}
