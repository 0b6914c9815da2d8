// A bench on which an entry of a solution is enclosed.
ghost use Rattle.std.specs.Prelude.{◌≡◌, ◌+◌, ◌<◌, ◌≤◌, ◌-◌, ◌*◌, ◌^◌, IfOk, length};
ghost use Rattle.std.specs.List.{All};
ghost use Rattle.complex_interval.specs.Rect.{rectangle_of};
ghost use Rattle.plain_elimination.specs.Matrix.{Square};
ghost use Rattle.certified_inverse.specs.Certificate.{valued, in_size, ceil_over, certified, enclosure, HoldsEnclosed};
ghost use Rattle.certified_inverse.specs.declared.outcome.InverseOutcome.TheVariants.{Enclosed};
ghost use Rattle.plain_elimination.specs.declared.limits.TheConstants.{MAX_SIZE};

use crate::outcome::InverseOutcome;
use crate::sigma::{copy_column, sigma_of};
use crate::size::{error_over, unit_of};
use crate::theta::theta_of;
use crate::ways::write_ways;
use complex_interval::{Enclosure, Rect};
use middle_inverse::{InverseFault, MiddleInverse};
use plain_elimination::{Matrix, nought_cells};
use std::alloc::{AllocError, Global};
use std::marker::Model;

/// A bench, which contracts see as its size.
#[derive(Drop)]
pub struct InverseBench<E: Enclosure> {
    size: u32,
    inverse: MiddleInverse<E>,
    x: Vec<Rect<E>>,
    left: Vec<Rect<E>>,
    sums: Vec<Rect<E>>,
    ways: Vec<Vec<u32>>,
}

impl<E: Enclosure> Model for InverseBench<E> {
    ghost use Rattle.std.specs.Prelude.{◌≡◌, ◌+◌, ◌≤◌, ℕ, length};
    ghost use Rattle.std.specs.List.{All};
    ghost use Rattle.plain_elimination.specs.declared.limits.TheConstants.{MAX_SIZE};

    ghost Value = { ℕ };

    ghost view = { λ b. b.size };

    ghost invariant = { λ b. record { few : b.size ≤ MAX_SIZE; inverse_in : b.inverse.size ≡ b.size; x_in : length b.x.items ≡ b.size; left_in : length b.left.items ≡ b.size; sums_in : length b.sums.items ≡ b.size; ways_in : length b.ways.items ≡ b.size; ways_wide : All (λ r. length r.items ≡ b.size + 1) b.ways.items } };
}

/// Room for a way over each of so many rows. It takes memory.
pub fn way_rows(alloc: Global, size: usize) -> Result<Vec<Vec<u32>>, AllocError>
    requires { size ≤ MAX_SIZE }
    ensures count { IfOk result (λ rows. length rows.items ≡ size) }
    ensures wide { IfOk result (λ rows. All (λ r. length r.items ≡ size + 1) rows.items) }
{
    let mut rows = Vec::new(alloc);
    for _row in 0..size {
        let mut way = Vec::new(alloc);
        way.resize(size + 1, 0)?;
        rows.push(way)?;
    }
    Ok(rows)
}

// The value at the column and its error.
fn enclosed_by<E: Enclosure>(value: Rect<E>, theta: u64, sigma: u64) -> InverseOutcome
    requires contracting { theta < 2 ^ E.SCALE }
    requires sigma_in { sigma ≤ 2 ^ 62 }
    ensures { result ≡ valued (in_size (ceil_over (sigma * 2 ^ E.SCALE) (2 ^ E.SCALE - theta))) (λ error. Enclosed (rectangle_of E.ends value).re.low (rectangle_of E.ends value).im.low error) }
{
    match error_over(E::SCALE, theta, sigma) {
        Some(error) => InverseOutcome::Enclosed {
            re: value.re.low(),
            im: value.im.low(),
            error,
        },
        None => InverseOutcome::OutOfRange,
    }
}

// What the inverse on the bench shows of the matrix and the column.
fn certify<E: Enclosure>(
    inverse: &MiddleInverse<E>,
    matrix: &Matrix<E>,
    column: u32,
    x: &mut [Rect<E>],
    left: &mut [Rect<E>],
    sums: &mut [Rect<E>],
    ways: &mut [Vec<u32>],
) -> InverseOutcome
    requires few { matrix.now.size ≤ MAX_SIZE }
    requires same { inverse.now.size ≡ matrix.now.size }
    requires rows { length inverse.now.rows ≡ inverse.now.size }
    requires column_in { column < matrix.now.size }
    requires x_in { length x.old ≡ matrix.now.size }
    requires left_in { length left.old ≡ matrix.now.size }
    requires sums_in { length sums.old ≡ matrix.now.size }
    requires ways_in { length ways.old ≡ matrix.now.size }
    requires ways_wide { All (λ r. length r.items ≡ matrix.now.size + 1) ways.old }
    ensures value { result ≡ certified E.SCALE column inverse.now.rows matrix.now.rows }
    ensures ways_wide { All (λ r. length r.items ≡ matrix.now.size + 1) ways.new }
{
    write_ways(ways, matrix);
    let theta = match theta_of(inverse, matrix, ways, left, sums) {
        Some(theta) => theta,
        None => return InverseOutcome::OutOfRange,
    };
    if unit_of(E::SCALE) <= theta as u128 {
        return InverseOutcome::NotContracting(theta);
    }
    copy_column(inverse, column, x);
    match sigma_of(inverse, matrix, column, x, left, sums) {
        Some(sigma) => enclosed_by(x[column as usize], theta, sigma),
        None => InverseOutcome::OutOfRange,
    }
}

impl<E: Enclosure> InverseBench<E> {
    /// A bench for matrices of this size. The only call that takes memory.
    pub fn new(alloc: Global, size: u32) -> Result<InverseBench<E>, AllocError>
        requires { size ≤ MAX_SIZE }
        ensures { IfOk result (λ b. b ≡ size) }
    {
        let count = size as usize;
        let inverse = MiddleInverse::new(alloc, size)?;
        let x = nought_cells(alloc, count)?;
        let left = nought_cells(alloc, count)?;
        let sums = nought_cells(alloc, count)?;
        let ways = way_rows(alloc, count)?;
        Ok(InverseBench {
            size,
            inverse,
            x,
            left,
            sums,
            ways,
        })
    }

    /// The value of the solution of the matrix for the unit right side at this column, counted from 0, in the row of the same number.
    ///
    /// `stated` is the stated computation, whose definition is `enclosure`; docs/inverse.md tells it. `held` says what `Enclosed`
    /// means: each exact matrix whose entries are held has exactly one solution for the unit right side, and its entry at `column`
    /// differs from `(re + j im) / 2^SCALE` by at most `error / 2^SCALE` in the sum of the sizes of both parts.
    pub fn enclose(&mut self, matrix: &Matrix<E>, column: u32) -> InverseOutcome
        requires same { self.old ≡ matrix.now.size }
        requires column_in { column < matrix.now.size }
        ensures stated { result ≡ enclosure E.SCALE column matrix.now.rows }
        ensures held { HoldsEnclosed E.SCALE matrix.now.size column matrix.now.rows result }
        ensures size { self.new ≡ self.old }
    {
        match self.inverse.invert(matrix) {
            Err(InverseFault::NoInverse(at)) => InverseOutcome::NoInverse(at),
            Err(InverseFault::OutOfRange) => InverseOutcome::OutOfRange,
            Ok(()) => certify(
                &self.inverse,
                matrix,
                column,
                self.x.as_mut_slice(),
                self.left.as_mut_slice(),
                self.sums.as_mut_slice(),
                self.ways.as_mut_slice(),
            ),
        }
    }
}
