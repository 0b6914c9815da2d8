// A bench on which matrices of one pattern are reduced and systems of it are solved.
ghost use Rattle.std.specs.Prelude.{◌≡◌, ◌*◌, ◌<◌, ◌≤◌, Ok, IfOk, OnOk, length, map};
ghost use Rattle.complex_interval.specs.Rect.{rectangle_of};
ghost use Rattle.plain_elimination.specs.Elimination.{bind, reduce, solve};
ghost use Rattle.plain_elimination.specs.Layout.{rows_of};
ghost use Rattle.plain_elimination.specs.Matrix.{HoldsComplements, HoldsSolutions};
ghost use Rattle.plain_elimination.specs.Pattern.{AreInside, IsZeroOutside};
ghost use Rattle.plain_elimination.specs.Rectangles.{rectangles, reduce_rectangles, solve_rectangles};
ghost use Rattle.sparse_rows.specs.Listed.{ZeroOutside, IsFill};
ghost use Rattle.plain_elimination.specs.declared.limits.TheConstants.{MAX_SIZE};

use crate::fill::marks_of;
use crate::gaps::gaps_of;
use crate::load::{load_listed, load_sides, store_sides};
use crate::reduction::reduce_listed;
use crate::solution::solve_listed;
use complex_interval::{Enclosure, Rect};
use plain_elimination::{Column, Failure, Matrix, Pattern, Spot, nought_cells};
use std::alloc::{AllocError, Global};
use std::marker::Model;

/// A bench, which contracts see as its pattern. `gaps` lists the places of the pattern and its fill: of each listed place the
/// way to the next one in its row, and 0 at all other places. There the cells are zero. `sides` has room for a right side.
#[derive(Drop)]
pub struct SparseBench<E: Enclosure> {
    size: u32,
    places: Vec<Spot>,
    gaps: Vec<u32>,
    cells: Vec<Rect<E>>,
    sides: Vec<Rect<E>>,
}

impl<E: Enclosure> Model for SparseBench<E> {
    ghost use Rattle.std.specs.Prelude.{◌≡◌, ◌*◌, ◌≤◌, ℕ, length, map};
    ghost use Rattle.complex_interval.specs.Rect.{rectangle_of};
    ghost use Rattle.sparse_rows.specs.Bench.{Places, IsBench};

    ghost Value = { Places };

    ghost view = { λ b. record { size = b.size; places = b.places.items } };

    ghost invariant = { λ b. IsBench b.size b.places.items b.gaps.items (map (rectangle_of E.ends) b.cells.items) (map (rectangle_of E.ends) b.sides.items) };
}

// The reduction of these entries on cells that are zero where no place is listed.
fn reduce_from<E: Enclosure>(
    cells: &mut [Rect<E>],
    source: &[Rect<E>],
    gaps: &[u32],
    size: usize,
) -> Result<Rect<E>, Failure>
    requires some { 0 < size }
    requires few { size ≤ MAX_SIZE }
    requires square { length cells.old ≡ size * size }
    requires sizes { length source.now ≡ length cells.old }
    requires gap_size { length gaps.now ≡ size * size }
    requires fill { IsFill gaps.now size }
    requires zeros { ZeroOutside gaps.now (map (rectangle_of E.ends) cells.old) }
    requires outside { ZeroOutside gaps.now (map (rectangle_of E.ends) source.now) }
    ensures stated { bind result (λ value. Ok (rectangle_of E.ends value))
        ≡ reduce (rectangles E.SCALE) (rows_of size size (map (rectangle_of E.ends) source.now)) }
    ensures zeros { ZeroOutside gaps.now (map (rectangle_of E.ends) cells.new) }
{
    load_listed(cells, source, gaps, size);
    reduce_listed(cells, gaps, size)
}

// The solution of these entries with this right side, on cells that are zero where no place is listed.
fn solve_from<E: Enclosure>(
    cells: &mut [Rect<E>],
    sides: &mut [Rect<E>],
    source: &[Rect<E>],
    gaps: &[u32],
    right: &mut Column<E>,
    size: usize,
) -> Result<(), Failure>
    requires few { size ≤ MAX_SIZE }
    requires square { length cells.old ≡ size * size }
    requires side_size { length sides.old ≡ size }
    requires sizes { length source.now ≡ length cells.old }
    requires right_size { length right.old ≡ size }
    requires gap_size { length gaps.now ≡ size * size }
    requires fill { IsFill gaps.now size }
    requires zeros { ZeroOutside gaps.now (map (rectangle_of E.ends) cells.old) }
    requires outside { ZeroOutside gaps.now (map (rectangle_of E.ends) source.now) }
    ensures stated { bind result (λ _. Ok right.new) ≡ solve (rectangles E.SCALE) (rows_of size size (map (rectangle_of E.ends) source.now)) right.old }
    ensures right_size { length right.new ≡ size }
    ensures zeros { ZeroOutside gaps.now (map (rectangle_of E.ends) cells.new) }
{
    load_listed(cells, source, gaps, size);
    load_sides(sides, right);
    solve_listed(cells, gaps, sides, size)?;
    store_sides(right, sides);
    Ok(())
}

impl<E: Enclosure> SparseBench<E> {
    /// A bench for matrices that are exact zero outside this pattern, with all fill of their elimination. The only call that takes
    /// memory.
    pub fn new(alloc: Global, pattern: &Pattern) -> Result<SparseBench<E>, AllocError>
        requires some { 1 ≤ pattern.now.size }
        requires few { pattern.now.size ≤ MAX_SIZE }
        requires inside { AreInside pattern.now.size pattern.now.places.items }
        ensures { IfOk result (λ b. b ≡ record { size = pattern.now.size; places = pattern.now.places.items }) }
    {
        let size = pattern.size as usize;
        let marks = marks_of(alloc, size, pattern.places.as_slice())?;
        let gaps = gaps_of(alloc, size, marks.as_slice())?;
        let cells = nought_cells(alloc, size * size)?;
        let sides = nought_cells(alloc, size)?;
        let places = Vec::from_slice(alloc, pattern.places.as_slice())?;
        Ok(SparseBench {
            size: pattern.size,
            places,
            gaps,
            cells,
            sides,
        })
    }

    /// The value of the matrix reduced to its last row and column, or the failure: exactly that of `reduce_to_last`. It takes no
    /// memory. An entry that is zero at a listed place is treated as there: a later row that begins with it stays.
    pub fn reduce(&mut self, matrix: &Matrix<E>) -> Result<Rect<E>, Failure>
        requires size { matrix.now.size ≡ self.old.size }
        requires outside { IsZeroOutside self.old.places matrix.now }
        ensures stated { bind result (λ value. Ok (rectangle_of E.ends value)) ≡ reduce_rectangles E.SCALE matrix.now.rows }
        ensures held { IfOk result (λ value. HoldsComplements E.SCALE matrix.now (rectangle_of E.ends value)) }
        ensures kept { self.new ≡ self.old }
    {
        let size = self.size as usize;
        reduce_from(
            self.cells.as_mut_slice(),
            matrix.cells(),
            self.gaps.as_slice(),
            size,
        )
    }

    /// The solution of the matrix's rows with these right sides, which takes their place, or the failure: exactly that of `solve`. It
    /// takes no memory. After a failure the right sides are unspecified.
    pub fn solve(&mut self, matrix: &Matrix<E>, right: &mut Column<E>) -> Result<(), Failure>
        requires size { matrix.now.size ≡ self.old.size }
        requires sizes { length right.old ≡ matrix.now.size }
        requires outside { IsZeroOutside self.old.places matrix.now }
        ensures stated { bind result (λ _. Ok right.new) ≡ solve_rectangles E.SCALE matrix.now.rows right.old }
        ensures held { OnOk result (HoldsSolutions E.SCALE matrix.now right.old right.new) }
        ensures right_size { length right.new ≡ length right.old }
        ensures kept { self.new ≡ self.old }
    {
        let size = self.size as usize;
        solve_from(
            self.cells.as_mut_slice(),
            self.sides.as_mut_slice(),
            matrix.cells(),
            self.gaps.as_slice(),
            right,
            size,
        )
    }
}
