// The numbers that a contraction overwrites.
ghost use Rattle.std.specs.Prelude.{◌≡◌, ◌≤◌, ◌<◌, length, map, IfOk};
ghost use Rattle.std.specs.Option.{option_map};
ghost use Rattle.branchwise_test.specs.Reach.{contraction};
ghost use Rattle.drop_bench.specs.Bounds.{bounds_of, IsOfSize, HasRoom};
ghost use Rattle.drop_bench.specs.Drops.{drop_ends};
ghost use Rattle.drop_bench.specs.Near.{contraction_of};

use crate::contracting::contraction_over;
use crate::drops::DropIntervals;
use crate::near::Contraction;
use crate::sizes::Sizes;
use crate::sums::zeros;
use complex_interval::Enclosure;
use std::alloc::{AllocError, Global};

/// Room for the numbers of a contraction: a number for each node, and seven for each drop.
#[derive(Drop)]
pub struct Room {
    pub xs: Vec<u64>,
    pub edges: Vec<u64>,
    pub all: Vec<u64>,
    pub weights: Vec<u64>,
    pub weighed_edges: Vec<u64>,
    pub weighed: Vec<u64>,
    pub nodes: Vec<u64>,
    pub far: Vec<u64>,
}

impl Room {
    /// Room for so many nodes and drops.
    pub fn new(alloc: Global, nodes: usize, drops: usize) -> Result<Room, AllocError>
        ensures { IfOk result (HasRoom nodes drops) }
    {
        let xs = zeros(alloc, drops)?;
        let edges = zeros(alloc, drops)?;
        let all = zeros(alloc, drops)?;
        let weights = zeros(alloc, drops)?;
        let weighed_edges = zeros(alloc, drops)?;
        let weighed = zeros(alloc, drops)?;
        let nodes = zeros(alloc, nodes)?;
        let far = zeros(alloc, drops)?;
        Ok(Room {
            xs,
            edges,
            all,
            weights,
            weighed_edges,
            weighed,
            nodes,
            far,
        })
    }

    /// What the sizes in `xs` come to.
    pub fn contraction<E: Enclosure>(
        &mut self,
        sizes: &Sizes,
        drops: &[DropIntervals<E>],
        driven: u32,
        count: usize,
    ) -> Option<Contraction>
        requires sizes_in { IsOfSize count (length drops.now) sizes.now }
        requires count_in { count ≤ length drops.now }
        requires room { HasRoom count (length drops.now) self.old }
        ensures value { option_map contraction_of result ≡ contraction E.SCALE driven (bounds_of sizes.now) (map (drop_ends E.ends) drops.now) self.old.xs.items }
        ensures room { HasRoom count (length drops.now) self.new }
    {
        contraction_over(
            sizes,
            drops,
            self.xs.as_slice(),
            driven,
            self.edges.as_mut_slice(),
            self.all.as_mut_slice(),
            self.weights.as_mut_slice(),
            self.weighed_edges.as_mut_slice(),
            self.weighed.as_mut_slice(),
            self.nodes.as_mut_slice(),
            self.far.as_mut_slice(),
        )
    }
}
