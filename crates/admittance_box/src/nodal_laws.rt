// What the matrix of a box says of exact networks, as contracts. No program calls these functions.
ghost use Rattle.std.specs.Prelude.{ℕ};
ghost use Rattle.admittance_box.specs.HeldMatrix.{BoxMatrixHolds, ReducedMatrixHolds};

/// Where the matrix of a box has a value, at every order of the box and for every network between the
/// two each branch with a live node has an admittance, and each entry holds the exact sum.
pub fn box_matrix_holds()
    ensures law { (scale : ℕ) → BoxMatrixHolds scale }
{}

/// Where its reduction ends in a value, that holds the reduced value of the exact nodal matrix with the
/// driven node last, at every order of the box and for every network between the two.
pub fn reduced_matrix_holds()
    ensures law { (scale : ℕ) → ReducedMatrixHolds scale }
{}
