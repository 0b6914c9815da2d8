// The branch-wise test of a box of orders: what it computes, and what that says. No program calls these functions.
#![tactic(auto)]

ghost use Rattle.std.specs.Prelude.{ℕ};
ghost use Rattle.branchwise_test.specs.Answers.{AnswersAreTrue};
ghost use Rattle.branchwise_test.specs.Holds.{ImpedanceIsNear};
ghost use Rattle.branchwise_test.specs.Worked.{WorkedEstimates};

mod fault;

pub use fault::BranchwiseFault;

/// An estimate over a box of orders holds: for every network between the pair, with the extra susceptance at the driven node where it
/// is above 0, and every order of the box, the driving-point impedance exists, is the only one, and lies within the error of a number
/// that the estimate holds.
pub fn impedance_is_near()
    ensures law { (s : ℕ) → ImpedanceIsNear s }
{}

/// Clear and above, by an estimate and its error: where the test answers, the impedance is within the threshold, or above it.
pub fn answers_are_true()
    ensures law { (s : ℕ) → AnswersAreTrue s }
{}

/// Estimates of small networks, worked by hand.
pub fn worked_estimates()
    ensures law { WorkedEstimates }
{}
