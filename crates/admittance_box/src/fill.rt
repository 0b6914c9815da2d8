// The rows of a matrix, branch by branch.
ghost use Rattle.std.specs.Prelude.{◌≡◌, ◌<◌, ◌≤◌, All, length, map};
ghost use Rattle.std.specs.Option.{option_map};
ghost use Rattle.complex_interval.specs.Rect.{rectangle_of};
ghost use Rattle.net_branch.specs.declared.limits.TheConstants.{MAX_BRANCHES};
ghost use Rattle.admittance_box.specs.BoxMatrix.{grown, with_pairs, with_pair_row, with_pair_rows, with_addend, with_addends};
ghost use Rattle.admittance_box.specs.Filled.{FillsAs, IsRowWithin, AreRowsWithin, IsWithin};
ghost use Rattle.admittance_box.specs.Intervals.{pair_ends, row_ends, rows_ends, addend_of};

use crate::group_bench::GroupBench;
use crate::group_taps::{GroupProducts, RowProducts};
use crate::intervals::{BranchIntervals, TapProduct};
use complex_interval::{Enclosure, Rect};
use plain_elimination::Matrix;

/// How a filling ends.
#[derive(Clone, Copy)]
pub enum Fill {
    /// The matrix has its entries.
    Filled,
    /// The first branch, counted from 0, at which the matrix has no value.
    OutOfRange(u32),
}

// The entry of a pair of taps grows by y times their factor.
fn add_pair<E: Enclosure>(y: Rect<E>, pair: TapProduct<E>, matrix: &mut Matrix<E>) -> Option<()>
    requires row_in { pair.row < matrix.old.size }
    requires column_in { pair.column < matrix.old.size }
    ensures rows { option_map (λ _. matrix.new.rows) result ≡ grown E.SCALE (rectangle_of E.ends y) (pair_ends E.ends pair) matrix.old.rows }
    ensures size { matrix.new.size ≡ matrix.old.size }
{
    let more = y.scale(pair.factor)?;
    let sum = matrix.get(pair.row, pair.column).add(more)?;
    matrix.set(pair.row, pair.column, sum);
    Some(())
}

/// Adds y times its factor to the entry of each pair of taps, in order. None where one has no value.
pub fn add_pairs<E: Enclosure>(
    y: Rect<E>,
    pairs: &[TapProduct<E>],
    matrix: &mut Matrix<E>,
) -> Option<()>
    requires { All (λ p. (p.row < matrix.old.size) × (p.column < matrix.old.size)) pairs.now }
    ensures rows { option_map (λ _. matrix.new.rows) result ≡ with_pairs E.SCALE (rectangle_of E.ends y) (map (pair_ends E.ends) pairs.now) matrix.old.rows }
    ensures size { matrix.new.size ≡ matrix.old.size }
{
    for pair in pairs {
        add_pair(y, *pair, matrix)?;
    }
    Some(())
}

// Adds the admittances of one branch of a group, a row of the bench's columns, for each branch of the group.
fn add_row<E: Enclosure>(
    bench: &GroupBench<E>,
    place: u32,
    row: &RowProducts<E>,
    matrix: &mut Matrix<E>,
) -> Option<()>
    requires place_in { place < 3 }
    requires within { IsRowWithin matrix.old.size row.now }
    ensures rows { option_map (λ _. matrix.new.rows) result ≡ with_pair_row E.SCALE bench.now place (row_ends E.ends row.now) matrix.old.rows }
    ensures size { matrix.new.size ≡ matrix.old.size }
{
    let (a, b, c) = bench.row(place);
    add_pairs(a, row.first.as_slice(), matrix)?;
    add_pairs(b, row.second.as_slice(), matrix)?;
    add_pairs(c, row.third.as_slice(), matrix)
}

// So for each branch of the group.
fn add_rows<E: Enclosure>(
    bench: &GroupBench<E>,
    products: &GroupProducts<E>,
    matrix: &mut Matrix<E>,
) -> Option<()>
    requires { AreRowsWithin matrix.old.size products.now }
    ensures rows { option_map (λ _. matrix.new.rows) result ≡ with_pair_rows E.SCALE bench.now (rows_ends E.ends products.now) matrix.old.rows }
    ensures size { matrix.new.size ≡ matrix.old.size }
{
    add_row(bench, 0, &products.first, matrix)?;
    add_row(bench, 1, &products.second, matrix)?;
    add_row(bench, 2, &products.third, matrix)
}

// What one branch adds.
fn add_branch<E: Enclosure>(
    branch: &BranchIntervals<E>,
    order: E,
    bench: &mut GroupBench<E>,
    matrix: &mut Matrix<E>,
) -> Option<()>
    requires { IsWithin matrix.old.size branch.now }
    ensures rows { option_map (λ _. matrix.new.rows) result ≡ with_addend E.SCALE (E.ends order) (addend_of E.ends branch.now) matrix.old.rows }
    ensures size { matrix.new.size ≡ matrix.old.size }
{
    match branch {
        BranchIntervals::Dead => Some(()),
        BranchIntervals::Absent => None,
        BranchIntervals::Joined(law, pairs) => {
            let y = law.admittance(order)?;
            add_pairs(y, pairs.as_slice(), matrix)
        }
        BranchIntervals::Grouped(group) => {
            bench.solve(&group.values, order)?;
            add_rows(bench, &group.products, matrix)
        }
    }
}

/// What each branch adds over the orders of `order`, to what the matrix has, or the first branch that
/// leaves no value. Groups are solved on the bench.
pub fn add_branches<E: Enclosure>(
    branches: &[BranchIntervals<E>],
    order: E,
    bench: &mut GroupBench<E>,
    matrix: &mut Matrix<E>,
) -> Fill
    requires few { length branches.now ≤ MAX_BRANCHES }
    requires within { All (IsWithin matrix.old.size) branches.now }
    ensures rows { FillsAs result matrix.new.rows (with_addends E.SCALE (E.ends order) 0 (map (addend_of E.ends) branches.now) matrix.old.rows) }
    ensures size { matrix.new.size ≡ matrix.old.size }
{
    for i in 0..branches.len() {
        if add_branch(&branches[i], order, bench, matrix).is_none() {
            return Fill::OutOfRange(i as u32);
        }
    }
    Fill::Filled
}
