// Bounds of sizes, and how far sizes of drops reach by them.
ghost use Rattle.std.specs.Prelude.{◌≡◌, ◌≤◌, IfOk, length, map};
ghost use Rattle.std.specs.List.{All};
ghost use Rattle.std.specs.Option.{option_map};
ghost use Rattle.complex_interval.specs.Rect.{rectangle_of};
ghost use Rattle.plain_elimination.specs.Matrix.{Square};
ghost use Rattle.branchwise_test.specs.Sizes.{bounds_of as bounds_stated};
ghost use Rattle.branchwise_test.specs.Reach.{reach};
ghost use Rattle.drop_bench.specs.Bounds.{bounds_of, reached_of, IsOfSize, HasLeftRoom};
ghost use Rattle.drop_bench.specs.Columns.{columns};
ghost use Rattle.drop_bench.specs.Drops.{drop_ends};
ghost use Rattle.plain_elimination.specs.declared.limits.TheConstants.{MAX_SIZE};

use crate::drops::DropIntervals;
use crate::left::LeftRoom;
use crate::reach::{add_products, times_numbers, write_edges, write_nodes};
use crate::sums::zeros;
use crate::transfers::write_transfers;
use crate::voltages::write_rests;
use complex_interval::{Enclosure, Rect};
use middle_inverse::MiddleInverse;
use plain_elimination::Matrix;
use std::alloc::{AllocError, Global};

/// Bounds of sizes: of the entries of (unit - C·P), of each drop where the current 1 flows in through each, and of the rests.
#[derive(Drop)]
pub struct Sizes {
    pub left: Vec<Vec<u64>>,
    pub transfers: Vec<Vec<u64>>,
    pub rests: Vec<u64>,
}

// So many lists of so many zeros.
fn zero_rows(alloc: Global, count: usize, width: usize) -> Result<Vec<Vec<u64>>, AllocError>
    ensures count { IfOk result (λ rows. length rows.items ≡ count) }
    ensures wide { IfOk result (λ rows. All (λ r. length r.items ≡ width) rows.items) }
{
    let mut rows = Vec::new(alloc);
    for _row in 0..count {
        rows.push(zeros(alloc, width)?)?;
    }
    Ok(rows)
}

impl Sizes {
    /// Room for the bounds of so many nodes and drops.
    pub fn new(alloc: Global, nodes: usize, drops: usize) -> Result<Sizes, AllocError>
        ensures { IfOk result (IsOfSize nodes drops) }
    {
        let left = zero_rows(alloc, nodes, nodes)?;
        let transfers = zero_rows(alloc, drops, drops)?;
        let rests = zeros(alloc, drops)?;
        Ok(Sizes {
            left,
            transfers,
            rests,
        })
    }
}

/// Writes the bounds, by the matrix C on the inverse's bench, the matrix P and the voltages of all drops.
pub fn write_bounds<E: Enclosure>(
    sizes: &mut Sizes,
    drops: &[DropIntervals<E>],
    voltages: &[Vec<Rect<E>>],
    inverse: &MiddleInverse<E>,
    matrix: &Matrix<E>,
    room: &mut LeftRoom<E>,
) -> Option<()>
    requires few { matrix.now.size ≤ MAX_SIZE }
    requires sizes_in { IsOfSize matrix.now.size (length drops.now) sizes.old }
    requires voltages_wide { All (λ r. length r.items ≡ length drops.now) voltages.now }
    requires same { inverse.now.size ≡ matrix.now.size }
    requires square { length inverse.now.rows ≡ inverse.now.size }
    requires room_in { HasLeftRoom matrix.now.size room.old }
    ensures value { option_map (λ _. bounds_of sizes.new) result
        ≡ bounds_stated E.SCALE (map (drop_ends E.ends) drops.now) matrix.now.rows inverse.now.rows (columns (length drops.now) (map (λ r. map (rectangle_of E.ends) r.items) voltages.now)) }
    ensures sizes_in { IsOfSize matrix.now.size (length drops.now) sizes.new }
    ensures room_in { HasLeftRoom matrix.now.size room.new }
{
    room.write(sizes.left.as_mut_slice(), inverse, matrix)?;
    write_transfers(sizes.transfers.as_mut_slice(), drops, voltages)?;
    write_rests(sizes.rests.as_mut_slice(), drops)
}

/// What numbers reach: what (unit - C·P) makes of them at each drop alone, and with what the rests add. `nodes` and `far` are overwritten.
pub fn write_reaches<E: Enclosure>(
    edges: &mut [u64],
    all: &mut [u64],
    sizes: &Sizes,
    drops: &[DropIntervals<E>],
    numbers: &[u64],
    nodes: &mut [u64],
    far: &mut [u64],
) -> Option<()>
    requires sizes_in { IsOfSize (length nodes.old) (length drops.now) sizes.now }
    requires nodes_in { length nodes.old ≤ length drops.now }
    requires numbers_in { length numbers.now ≡ length drops.now }
    requires far_in { length far.old ≡ length drops.now }
    requires edges_in { length edges.old ≡ length drops.now }
    requires all_in { length all.old ≡ length drops.now }
    ensures { option_map (λ _. reached_of edges.new all.new) result ≡ reach E.SCALE (bounds_of sizes.now) (map (drop_ends E.ends) drops.now) numbers.now }
{
    write_nodes(E::SCALE, nodes, sizes.left.as_slice(), numbers)?;
    write_edges(edges, drops, nodes)?;
    far.copy_from_slice(sizes.rests.as_slice());
    times_numbers(E::SCALE, far, numbers)?;
    all.copy_from_slice(edges);
    add_products(E::SCALE, all, sizes.transfers.as_slice(), far)?;
    Some(())
}
