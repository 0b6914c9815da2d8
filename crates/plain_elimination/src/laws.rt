// What reduction and solving say of exact matrices, as contracts. No program calls these functions.
ghost use Rattle.std.specs.Prelude.{ℕ};
ghost use Rattle.plain_elimination.specs.Rectangles.{ReductionHolds, SolutionHolds};
ghost use Rattle.plain_elimination.specs.Worked.{WorkedReductions};

/// Where the reduction of a square list of rectangles ends in a value, each exact matrix that they hold has pivots other
/// than zero and exactly one complement y, which the value holds.
pub fn reduction_holds()
    ensures law { (scale : ℕ) → ReductionHolds scale }
{}

/// Where solving a square list of rectangles ends without a failure, each exact system that they hold has exactly one
/// solution, whose entries the rectangles of the result hold.
pub fn solution_holds()
    ensures law { (scale : ℕ) → SolutionHolds scale }
{}

/// Reduction and solving of rectangles that were worked by hand.
pub fn worked_reductions()
    ensures law { WorkedReductions }
{}
