// The branch-wise test of a box of orders, as theorems over exact fractions. No program calls these functions.
#![tactic(auto)]

ghost use Rattle.branchwise_laws.specs.Laws.{OnlyZeroWhereShrunk, ImpedanceNearEstimate};
ghost use Rattle.branchwise_laws.specs.Pairs.{CountedAddUp};
ghost use Rattle.branchwise_laws.specs.Near.{NearAnswers};
ghost use Rattle.branchwise_laws.specs.Places.{PlacesTest};
ghost use Rattle.branchwise_laws.specs.Wholes.{WholeTest, WholeAnswers};
ghost use Rattle.branchwise_laws.specs.Extra.{ShuntAdmitted};
ghost use Rattle.branchwise_laws.specs.Worked.{WorkedTest};
ghost use Rattle.branchwise_laws.specs.Bounds.{BranchwiseTest};

/// Links that count each pair of a network's taps add up to its nodal matrix.
pub fn counted_add_up()
    ensures law { CountedAddUp }
{}

/// Where the weights of drops shrink, only the zero state has no injection.
pub fn only_zero_where_shrunk()
    ensures law { OnlyZeroWhereShrunk }
{}

/// And where they cover the driven node's column, the driving-point impedance exists, is the only one, and is near an estimate.
pub fn impedance_near_estimate()
    ensures law { ImpedanceNearEstimate }
{}

/// The same with bounds of the sizes, as the test computes them.
pub fn branchwise_test()
    ensures law { BranchwiseTest }
{}

/// The same by places, with one list of drops that begins with those of the nodes.
pub fn places_test()
    ensures law { PlacesTest }
{}

/// The same in whole numbers, by the steps of the test.
pub fn whole_test()
    ensures law { WholeTest }
{}

/// An impedance near a number of known size is within a threshold, or above it.
pub fn near_answers()
    ensures law { NearAnswers }
{}

/// The test at one bus, worked by hand.
pub fn worked_test()
    ensures law { WorkedTest }
{}

/// Clear and above, in whole numbers.
pub fn whole_answers()
    ensures law { WholeAnswers }
{}

/// With a shunt at a live node, the network has the shunt's part after its own, and the same live nodes.
pub fn shunt_admitted()
    ensures law { ShuntAdmitted }
{}
