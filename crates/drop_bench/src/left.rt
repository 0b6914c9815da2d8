// The sizes of the entries of (unit - C·P).
ghost use Rattle.std.specs.Prelude.{◌≡◌, ◌<◌, ◌≤◌, IfOk, length, map};
ghost use Rattle.std.specs.List.{All};
ghost use Rattle.std.specs.Option.{option_map};
ghost use Rattle.complex_interval.specs.Rect.{rectangle_of};
ghost use Rattle.plain_elimination.specs.Matrix.{Square, nought_rectangle};
ghost use Rattle.middle_inverse.specs.Inverse.{one_rectangle, unit_row};
ghost use Rattle.certified_inverse.specs.Ways.{AreWays};
ghost use Rattle.branchwise_test.specs.Sizes.{left_row, left_sizes};
ghost use Rattle.drop_bench.specs.Bounds.{HasLeftRoom};
ghost use Rattle.plain_elimination.specs.declared.limits.TheConstants.{MAX_SIZE};

use crate::voltages::write_sizes;
use certified_inverse::{combine_listed, take_away, way_rows, write_ways};
use complex_interval::{Enclosure, Rect};
use middle_inverse::{MiddleInverse, write_unit};
use plain_elimination::{Matrix, nought_cells};
use std::alloc::{AllocError, Global};

// A row of them: the unit row at this place less the matrix's rows, each times its factor, by the ways over the zeros of the rows.
fn write_left_row<E: Enclosure>(
    row: &mut [u64],
    place: usize,
    factors: &[Rect<E>],
    matrix: &Matrix<E>,
    ways: &[Vec<u32>],
    unit: &mut [Rect<E>],
    sums: &mut [Rect<E>],
) -> Option<()>
    requires row_in { length row.old ≡ matrix.now.size }
    requires place_in { place < matrix.now.size }
    requires factors_in { length factors.now ≡ matrix.now.size }
    requires ways_in { length ways.now ≡ matrix.now.size }
    requires ways { AreWays matrix.now.rows (map (λ r. r.items) ways.now) }
    requires unit_in { length unit.old ≡ matrix.now.size }
    requires sums_in { length sums.old ≡ matrix.now.size }
    ensures { option_map (λ _. row.new) result ≡ left_row E.SCALE matrix.now.rows (unit_row (one_rectangle E.SCALE) nought_rectangle matrix.now.size place) (map (rectangle_of E.ends) factors.now) }
{
    write_unit(unit, place);
    combine_listed(sums, factors, matrix, ways)?;
    take_away(unit, sums)?;
    write_sizes(row, unit)
}

// All rows.
fn write_left<E: Enclosure>(
    rows: &mut [Vec<u64>],
    inverse: &MiddleInverse<E>,
    matrix: &Matrix<E>,
    ways: &[Vec<u32>],
    unit: &mut [Rect<E>],
    sums: &mut [Rect<E>],
) -> Option<()>
    requires count { length rows.old ≡ matrix.now.size }
    requires wide { All (λ r. length r.items ≡ matrix.now.size) rows.old }
    requires same { inverse.now.size ≡ matrix.now.size }
    requires square { length inverse.now.rows ≡ inverse.now.size }
    requires ways_in { length ways.now ≡ matrix.now.size }
    requires ways { AreWays matrix.now.rows (map (λ r. r.items) ways.now) }
    requires unit_in { length unit.old ≡ matrix.now.size }
    requires sums_in { length sums.old ≡ matrix.now.size }
    ensures value { option_map (λ _. map (λ r. r.items) rows.new) result ≡ left_sizes E.SCALE inverse.now.rows matrix.now.rows }
    ensures wide { All (λ r. length r.items ≡ matrix.now.size) rows.new }
{
    for i in 0..matrix.size() {
        let row = rows[i as usize].as_mut_slice();
        write_left_row(row, i as usize, inverse.row(i), matrix, ways, unit, sums)?;
    }
    Some(())
}

/// Room for a row of (unit - C·P), and for the ways over the zeros of P's rows.
#[derive(Drop)]
pub struct LeftRoom<E> {
    pub unit: Vec<Rect<E>>,
    pub sums: Vec<Rect<E>>,
    pub ways: Vec<Vec<u32>>,
}

impl<E: Enclosure> LeftRoom<E> {
    /// Room for matrices of this size.
    pub fn new(alloc: Global, size: usize) -> Result<LeftRoom<E>, AllocError>
        requires { size ≤ MAX_SIZE }
        ensures { IfOk result (HasLeftRoom size) }
    {
        let unit = nought_cells(alloc, size)?;
        let sums = nought_cells(alloc, size)?;
        let ways = way_rows(alloc, size)?;
        Ok(LeftRoom { unit, sums, ways })
    }

    /// Writes the sizes of the entries of (unit - C·P), where C is the matrix on the inverse's bench.
    pub fn write(
        &mut self,
        rows: &mut [Vec<u64>],
        inverse: &MiddleInverse<E>,
        matrix: &Matrix<E>,
    ) -> Option<()>
        requires few { matrix.now.size ≤ MAX_SIZE }
        requires count { length rows.old ≡ matrix.now.size }
        requires wide { All (λ r. length r.items ≡ matrix.now.size) rows.old }
        requires same { inverse.now.size ≡ matrix.now.size }
        requires square { length inverse.now.rows ≡ inverse.now.size }
        requires room { HasLeftRoom matrix.now.size self.old }
        ensures value { option_map (λ _. map (λ r. r.items) rows.new) result ≡ left_sizes E.SCALE inverse.now.rows matrix.now.rows }
        ensures wide { All (λ r. length r.items ≡ matrix.now.size) rows.new }
        ensures room { HasLeftRoom matrix.now.size self.new }
    {
        write_ways(self.ways.as_mut_slice(), matrix);
        write_left(
            rows,
            inverse,
            matrix,
            self.ways.as_slice(),
            self.unit.as_mut_slice(),
            self.sums.as_mut_slice(),
        )
    }
}
