// The theory of linear networks over exact fractions: definitions in specs/, and their laws as contracts of functions that no program calls.
#![tactic(auto)]

ghost use Rattle.network_theory.specs.Laws.{LiveIsLeast, PlainResistance, OneImpedance, StateSolves, InjectiveNodal, SolvedState, ReducedImpedance, Cleared, Peak, SplitAdmittances, GroupAdmittance, StateCurrents, DeadPart, BetweenItself, LiveIsNode, WithinOhms};
ghost use Rattle.network_theory.specs.Reach.{LiveInRounds};
ghost use Rattle.network_theory.specs.Phases.{CoupledPhases, BehindRatio};
ghost use Rattle.network_theory.specs.Figures.{WorkedFigures};
ghost use Rattle.network_theory.specs.Cases.{WorkedCases};
ghost use Rattle.network_theory.specs.Extra.{ExtraShunt};
ghost use Rattle.network_theory.specs.OneNode.{OneNodeReduced};
ghost use Rattle.network_theory.specs.OneBus.{SeriesAlone, BesideShunt, AtThreeAndAQuarter, AtFiveAndAQuarter, NoneAtFive};

/// The live nodes are in every set that is closed.
pub fn live_is_least()
    ensures law { LiveIsLeast }
{}

/// The live nodes of a whole network are those that as many rounds as it has nodes reach, and one.
pub fn live_in_rounds()
    ensures law { LiveInRounds }
{}

/// Where k is 0, R(h) is r.
pub fn plain_resistance()
    ensures law { PlainResistance }
{}

/// A network has at most one driving-point impedance at a node and an order.
pub fn one_impedance()
    ensures law { OneImpedance }
{}

/// The voltages of an exact state solve the nodal equations.
pub fn state_solves()
    ensures law { StateSolves }
{}

/// A network has only the zero state exactly where its nodal matrix is injective.
pub fn injective_nodal()
    ensures law { InjectiveNodal }
{}

/// One solution of the nodal equations is one exact state.
pub fn solved_state()
    ensures law { SolvedState }
{}

/// A reduced value y other than zero gives the impedance 1/y.
pub fn reduced_impedance()
    ensures law { ReducedImpedance }
{}

/// A reduced value of at least 1/T in size gives an impedance within T.
pub fn cleared()
    ensures law { Cleared }
{}

/// A reduced value other than zero, below 1/T in size, gives an impedance above T.
pub fn peak()
    ensures law { Peak }
{}

/// Of a network of one node the nodal matrix is the sum of the branches' admittances.
pub fn one_node()
    ensures law { OneNodeReduced }
{}

// One series branch to ground has the impedance r + jhx.
pub fn series_alone()
    ensures law { SeriesAlone }
{}

/// With a shunt beside a series branch, the impedance is the inverse of the sum of the admittances, or none.
pub fn beside_shunt()
    ensures law { BesideShunt }
{}

/// An impedance of 3.25 ohms at order 3.25.
pub fn at_three_and_a_quarter()
    ensures law { AtThreeAndAQuarter }
{}

/// An impedance of about 50.186 ohms at order 5.25, beside the resonance.
pub fn at_five_and_a_quarter()
    ensures law { AtFiveAndAQuarter }
{}

// No impedance at order 5, where the branches resonate.
pub fn none_at_five()
    ensures law { NoneAtFive }
{}

/// Of a split network it is enough that each part with a live node has its admittances.
pub fn split_admittances()
    ensures law { SplitAdmittances }
{}

/// A group's admittances are the solutions of its Z for the unit right sides.
pub fn group_admittance()
    ensures law { GroupAdmittance }
{}

/// A shunt at the driven node adds jhe to the reduced value.
pub fn extra_shunt()
    ensures law { ExtraShunt }
{}

/// The currents of an exact state are those of the admittances at its drops.
pub fn state_currents()
    ensures law { StateCurrents }
{}

/// A part without a live node adds nothing to the nodal matrix.
pub fn dead_part()
    ensures law { DeadPart }
{}

/// A whole network lies between itself and itself.
pub fn between_itself()
    ensures law { BetweenItself }
{}

/// The live nodes of a whole network are nodes of it.
pub fn live_is_node()
    ensures law { LiveIsNode }
{}

/// A group of three to ground: the voltages are a column of its impedances.
pub fn coupled_phases()
    ensures law { CoupledPhases }
{}

/// Behind a ratio t the source's impedance counts t² times.
pub fn behind_a_ratio()
    ensures law { BehindRatio }
{}

/// Within a threshold per unit is at most that threshold in ohms.
pub fn within_ohms()
    ensures law { WithinOhms }
{}

/// Figures worked by hand.
pub fn worked_figures()
    ensures law { WorkedFigures }
{}

/// Boxes, thresholds, networks and scans worked by hand.
pub fn worked_cases()
    ensures law { WorkedCases }
{}
