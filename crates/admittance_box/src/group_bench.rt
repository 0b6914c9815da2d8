// Where the impedance matrix of three coupled branches is inverted.
ghost use Rattle.std.specs.Prelude.{◌≡◌, ◌<◌, [], ◌∷◌, IfOk, Some, length, slice_get};
ghost use Rattle.std.specs.Option.{option_map};
ghost use Rattle.complex_interval.specs.Rect.{rectangle_of};
ghost use Rattle.plain_elimination.specs.Matrix.{set_entry, nought_rectangle};
ghost use Rattle.admittance_box.specs.Coupling.{impedance_rows, solved, inverse_columns, coupling_columns};
ghost use Rattle.admittance_box.specs.Exact.{one_rectangle};
ghost use Rattle.admittance_box.specs.Groups.{coupling_ends, impedance_ends};

use crate::coupling::{CouplingIntervals, ImpedanceIntervals};
use crate::exact::{exact_one, exact_zero};
use complex_interval::{Enclosure, Rect};
use plain_elimination::{Column, Matrix, solve};
use std::alloc::{AllocError, Global};
use std::marker::Model;

/// A three by three matrix, and the columns of its inverse, which contracts see.
#[derive(Drop)]
pub struct GroupBench<E: Enclosure> {
    matrix: Matrix<E>,
    first: Column<E>,
    second: Column<E>,
    third: Column<E>,
}

impl<E: Enclosure> Model for GroupBench<E> {
    ghost use Rattle.std.specs.Prelude.{◌≡◌, length};
    ghost use Rattle.admittance_box.specs.Coupling.{Columns};

    ghost Value = { Columns };

    ghost view = { λ b. record { first = b.first; second = b.second; third = b.third } };

    ghost invariant = { λ b. record { matrix_in : b.matrix.size ≡ 3; first_in : length b.first ≡ 3; second_in : length b.second ≡ 3; third_in : length b.third ≡ 3 } };
}

// The number 1 alone.
fn one_alone<E: Enclosure>() -> Rect<E>
    ensures { rectangle_of E.ends result ≡ one_rectangle E.SCALE }
{
    Rect {
        re: exact_one(),
        im: exact_zero(),
    }
}

// Zero alone.
fn zero_alone<E: Enclosure>() -> Rect<E>
    ensures { rectangle_of E.ends result ≡ nought_rectangle }
{
    Rect {
        re: exact_zero(),
        im: exact_zero(),
    }
}

// Sets the entries of a row.
fn set_row<E: Enclosure>(matrix: &mut Matrix<E>, row: u32, a: Rect<E>, b: Rect<E>, c: Rect<E>)
    requires size { matrix.old.size ≡ 3 }
    requires row_in { row < 3 }
    ensures rows { matrix.new.rows ≡ set_entry (set_entry (set_entry matrix.old.rows row 0 (rectangle_of E.ends a)) row 1 (rectangle_of E.ends b)) row 2 (rectangle_of E.ends c) }
    ensures size { matrix.new.size ≡ 3 }
{
    matrix.set(row, 0, a);
    matrix.set(row, 1, b);
    matrix.set(row, 2, c);
}

// Sets the entries of a group's impedance matrix.
fn set_impedances<E: Enclosure>(matrix: &mut Matrix<E>, z: ImpedanceIntervals<E>)
    requires { matrix.old.size ≡ 3 }
    ensures rows { matrix.new.rows ≡ impedance_rows (impedance_ends E.ends z) }
    ensures size { matrix.new.size ≡ 3 }
{
    matrix.clear();
    set_row(matrix, 0, z.own, z.ab, z.ca);
    set_row(matrix, 1, z.ab, z.own, z.bc);
    set_row(matrix, 2, z.ca, z.bc, z.own);
}

// Sets the entries of a column.
fn set_column<E: Enclosure>(column: &mut Column<E>, a: Rect<E>, b: Rect<E>, c: Rect<E>)
    requires { length column.old ≡ 3 }
    ensures { column.new ≡ rectangle_of E.ends a ∷ rectangle_of E.ends b ∷ rectangle_of E.ends c ∷ [] }
{
    column.set(0, a);
    column.set(1, b);
    column.set(2, c);
}

// The solution of a group's impedance matrix for the right side a, b and c. None where it has no value.
#[tactic(auto, unfolding(crate::specs::Coupling::solved))]
fn solve_column<E: Enclosure>(
    matrix: &mut Matrix<E>,
    z: ImpedanceIntervals<E>,
    column: &mut Column<E>,
    a: Rect<E>,
    b: Rect<E>,
    c: Rect<E>,
) -> Option<()>
    requires size { matrix.old.size ≡ 3 }
    requires column_size { length column.old ≡ 3 }
    ensures value { option_map (λ _. column.new) result
        ≡ solved E.SCALE (impedance_ends E.ends z) (rectangle_of E.ends a ∷ rectangle_of E.ends b ∷ rectangle_of E.ends c ∷ []) }
    ensures size { matrix.new.size ≡ 3 }
    ensures column_size { length column.new ≡ 3 }
{
    set_impedances(matrix, z);
    set_column(column, a, b, c);
    solve(matrix, column).ok()
}

// The columns of the inverse of a group's impedance matrix. None where one has no value.
fn invert<E: Enclosure>(
    matrix: &mut Matrix<E>,
    z: ImpedanceIntervals<E>,
    first: &mut Column<E>,
    second: &mut Column<E>,
    third: &mut Column<E>,
) -> Option<()>
    requires size { matrix.old.size ≡ 3 }
    requires first_size { length first.old ≡ 3 }
    requires second_size { length second.old ≡ 3 }
    requires third_size { length third.old ≡ 3 }
    ensures value { option_map (λ _. record { first = first.new; second = second.new; third = third.new }) result ≡ inverse_columns E.SCALE (impedance_ends E.ends z) }
    ensures size { matrix.new.size ≡ 3 }
    ensures first_size { length first.new ≡ 3 }
    ensures second_size { length second.new ≡ 3 }
    ensures third_size { length third.new ≡ 3 }
{
    let one = one_alone();
    let zero = zero_alone();
    solve_column(matrix, z, first, one, zero, zero)?;
    solve_column(matrix, z, second, zero, one, zero)?;
    solve_column(matrix, z, third, zero, zero, one)
}

impl<E: Enclosure> GroupBench<E> {
    /// A bench. The only call that takes memory.
    pub fn new(alloc: Global) -> Result<GroupBench<E>, AllocError> {
        Ok(GroupBench {
            matrix: Matrix::new(alloc, 3)?,
            first: Column::new(alloc, 3)?,
            second: Column::new(alloc, 3)?,
            third: Column::new(alloc, 3)?,
        })
    }

    /// The admittances of three coupled branches over the orders of `order`, in per unit: the columns of
    /// the inverse of their impedance matrix. None where a step has no value.
    #[tactic(auto, unfolding(crate::specs::Coupling::coupling_columns))]
    pub fn solve(&mut self, values: &CouplingIntervals<E>, order: E) -> Option<()>
        ensures { option_map (λ _. record { first = self.new.first; second = self.new.second; third = self.new.third }) result ≡ coupling_columns E.SCALE (E.ends order) (coupling_ends E.ends values.now) }
    {
        let z = values.impedances(order)?;
        invert(
            &mut self.matrix,
            z,
            &mut self.first,
            &mut self.second,
            &mut self.third,
        )
    }

    /// The entries of a row of the columns, counted from 0.
    pub fn row(&self, place: u32) -> (Rect<E>, Rect<E>, Rect<E>)
        requires { place < 3 }
        ensures first { slice_get self.now.first place ≡ Some (rectangle_of E.ends result.0) }
        ensures second { slice_get self.now.second place ≡ Some (rectangle_of E.ends result.1) }
        ensures third { slice_get self.now.third place ≡ Some (rectangle_of E.ends result.2) }
    {
        (
            self.first.get(place),
            self.second.get(place),
            self.third.get(place),
        )
    }
}
