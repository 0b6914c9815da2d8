// A bench on which the impedance over a box is estimated. No call but the first takes memory.
ghost use Rattle.std.specs.Prelude.{◌≡◌, ◌<◌, ◌≤◌, ◌-◌, IfOk, length, map};
ghost use Rattle.std.specs.List.{All};
ghost use Rattle.plain_elimination.specs.Matrix.{Square};
ghost use Rattle.branchwise_test.specs.Enclosed.{near_of_drops};
ghost use Rattle.drop_bench.specs.Bench.{BenchSize};
ghost use Rattle.drop_bench.specs.Bounds.{IsOfSize, HasRoom, HasLeftRoom};
ghost use Rattle.drop_bench.specs.Drops.{drop_ends, IsInside};
ghost use Rattle.drop_bench.specs.Near.{near_of};
ghost use Rattle.drop_bench.specs.Results.{result_of};
ghost use Rattle.plain_elimination.specs.declared.limits.TheConstants.{MAX_SIZE};

use crate::drops::DropIntervals;
use crate::left::LeftRoom;
use crate::near::Near;
use crate::room::Room;
use crate::sizes::Sizes;
use crate::whole::near_of_drops;
use branchwise_test::BranchwiseFault;
use complex_interval::{Enclosure, Rect};
use middle_inverse::MiddleInverse;
use plain_elimination::{Matrix, nought_cells};
use std::alloc::{AllocError, Global};
use std::marker::Model;

/// A bench, which contracts see as the numbers of nodes and of drops.
#[derive(Drop)]
pub struct DropBench<E: Enclosure> {
    nodes: u32,
    drops: usize,
    matrix: Matrix<E>,
    inverse: MiddleInverse<E>,
    voltages: Vec<Vec<Rect<E>>>,
    column: Vec<Rect<E>>,
    xs: Vec<Rect<E>>,
    left: LeftRoom<E>,
    sizes: Sizes,
    room: Room,
}

impl<E: Enclosure> Model for DropBench<E> {
    ghost use Rattle.std.specs.Prelude.{◌≡◌, ◌≤◌, length};
    ghost use Rattle.std.specs.List.{All};
    ghost use Rattle.drop_bench.specs.Bench.{BenchSize};
    ghost use Rattle.drop_bench.specs.Bounds.{IsOfSize, HasRoom, HasLeftRoom};
    ghost use Rattle.plain_elimination.specs.declared.limits.TheConstants.{MAX_SIZE};

    ghost Value = { BenchSize };

    ghost view = { λ b. record { nodes = b.nodes; drops = b.drops } };

    ghost invariant = { λ b. record {
      few : b.nodes ≤ MAX_SIZE;
      matrix_in : b.matrix.size ≡ b.nodes;
      inverse_in : b.inverse.size ≡ b.nodes;
      voltages_in : length b.voltages.items ≡ b.nodes;
      voltages_wide : All (λ r. length r.items ≡ b.drops) b.voltages.items;
      column_in : length b.column.items ≡ b.nodes;
      xs_in : length b.xs.items ≡ b.drops;
      left_in : HasLeftRoom b.nodes b.left;
      sizes_in : IsOfSize b.nodes b.drops b.sizes;
      room_in : HasRoom b.nodes b.drops b.room;
    } };
}

// So many lists of so many zeros.
fn cell_rows<E: Enclosure>(
    alloc: Global,
    count: usize,
    width: usize,
) -> Result<Vec<Vec<Rect<E>>>, AllocError>
    ensures count { IfOk result (λ rows. length rows.items ≡ count) }
    ensures wide { IfOk result (λ rows. All (λ r. length r.items ≡ width) rows.items) }
{
    let mut rows = Vec::new(alloc);
    for _row in 0..count {
        rows.push(nought_cells(alloc, width)?)?;
    }
    Ok(rows)
}

impl<E: Enclosure> DropBench<E> {
    /// A bench for so many nodes and drops. The only call that takes memory.
    pub fn new(alloc: Global, nodes: u32, drops: usize) -> Result<DropBench<E>, AllocError>
        requires { nodes ≤ MAX_SIZE }
        ensures { IfOk result (λ b. b ≡ record { nodes = nodes; drops = drops }) }
    {
        let width = nodes as usize;
        let matrix = Matrix::new(alloc, nodes)?;
        let inverse = MiddleInverse::new(alloc, nodes)?;
        let voltages = cell_rows(alloc, width, drops)?;
        let column = nought_cells(alloc, width)?;
        let xs = nought_cells(alloc, drops)?;
        let left = LeftRoom::new(alloc, width)?;
        let sizes = Sizes::new(alloc, width, drops)?;
        let room = Room::new(alloc, width, drops)?;
        Ok(DropBench {
            nodes,
            drops,
            matrix,
            inverse,
            voltages,
            column,
            xs,
            left,
            sizes,
            room,
        })
    }

    /// The estimate of the driving-point impedance by these drops, and its error, or why there is none. The first drops are those of
    /// the nodes, the last of which is driven.
    pub fn estimate(&mut self, drops: &[DropIntervals<E>]) -> Result<Near<E>, BranchwiseFault>
        requires some { 0 < self.old.nodes }
        requires count { length drops.now ≡ self.old.drops }
        requires nodes_in { self.old.nodes ≤ self.old.drops }
        requires inside { All (IsInside self.old.nodes) drops.now }
        ensures value { result_of (near_of E.ends) result ≡ near_of_drops E.SCALE self.old.nodes (map (drop_ends E.ends) drops.now) }
        ensures same { self.new ≡ self.old }
    {
        near_of_drops(
            drops,
            &mut self.matrix,
            &mut self.inverse,
            self.voltages.as_mut_slice(),
            self.column.as_mut_slice(),
            self.xs.as_mut_slice(),
            &mut self.left,
            &mut self.sizes,
            &mut self.room,
        )
    }
}
