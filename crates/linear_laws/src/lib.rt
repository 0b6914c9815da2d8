// The laws of square systems of fractions, as contracts. No program calls these functions, and they take no memory.
#![tactic(auto)]

mod rows;

ghost use Rattle.std.specs.Prelude.{ℕ};
ghost use Rattle.exact_algebra.specs.Ratio.{ratio_numbers};
ghost use Rattle.exact_algebra.specs.Complex.{complex_numbers};
ghost use Rattle.linear_systems.specs.Linear.{FrontOfZeroRows, FrontOfZeroRowsAt, EliminationLaw, EliminationLawAt, InjectiveIsSolvable, InjectiveIsSolvableAt};
ghost use Rattle.linear_systems.specs.Doubled.{ComplexAsReal};

pub use rows::Rows;

/// A square list of at least one row whose rows all begin with zero has a homogeneous solution other than zero.
pub fn front_of_zero_rows(rows: &Rows)
    ensures law { FrontOfZeroRows ratio_numbers }
    ensures of_rows { (n : ℕ) → FrontOfZeroRowsAt ratio_numbers n rows.now }
{}

/// One step of the elimination, where the first row begins with a fraction other than zero. The smaller list is the
/// later rows less those multiples of the first row that make their first entries zero, without these entries. It has
/// only the zero homogeneous solution exactly where the whole list has. A solution of the smaller system, whose right
/// side is changed in the same way, extends to exactly one solution of the whole.
pub fn elimination_step(rows: &Rows)
    ensures law { EliminationLaw ratio_numbers }
    ensures of_rows { (n : ℕ) → EliminationLawAt ratio_numbers n rows.now }
{}

/// A square list of fractions with only the zero homogeneous solution has exactly one solution for every right side.
/// A complex system of n rows is read as a real one of 2n, so the law is one of complex fractions too.
pub fn injective_is_solvable(rows: &Rows)
    ensures law { InjectiveIsSolvable ratio_numbers }
    ensures of_rows { (n : ℕ) → InjectiveIsSolvableAt ratio_numbers n rows.now }
    ensures of_complex { InjectiveIsSolvable complex_numbers }
    ensures as_real { ComplexAsReal }
{}
