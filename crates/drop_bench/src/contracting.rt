// What the sizes of a column come to.
ghost use Rattle.std.specs.Prelude.{◌≡◌, ◌≤◌, length, map, slice_get};
ghost use Rattle.std.specs.Option.{option_map};
ghost use Rattle.branchwise_test.specs.Reach.{contraction};
ghost use Rattle.drop_bench.specs.Bounds.{bounds_of, IsOfSize};
ghost use Rattle.drop_bench.specs.Drops.{drop_ends};
ghost use Rattle.drop_bench.specs.Near.{contraction_of};

use crate::contraction::{theta_over, write_weights};
use crate::drops::DropIntervals;
use crate::near::Contraction;
use crate::sizes::{Sizes, write_reaches};
use certified_inverse::in_size;
use complex_interval::Enclosure;

// The number at this place, if there is one.
fn number_at(numbers: &[u64], place: u32) -> Option<u64>
    ensures { result ≡ slice_get numbers.now place }
{
    let place = place as usize;
    if place < numbers.len() {
        Some(numbers[place])
    } else {
        None
    }
}

/// What the sizes of the driven node's column come to. All slices but `xs` are overwritten.
pub fn contraction_over<E: Enclosure>(
    sizes: &Sizes,
    drops: &[DropIntervals<E>],
    xs: &[u64],
    driven: u32,
    edges: &mut [u64],
    all: &mut [u64],
    weights: &mut [u64],
    weighed_edges: &mut [u64],
    weighed: &mut [u64],
    nodes: &mut [u64],
    far: &mut [u64],
) -> Option<Contraction>
    requires sizes_in { IsOfSize (length nodes.old) (length drops.now) sizes.now }
    requires nodes_in { length nodes.old ≤ length drops.now }
    requires xs_in { length xs.now ≡ length drops.now }
    requires edges_in { length edges.old ≡ length drops.now }
    requires all_in { length all.old ≡ length drops.now }
    requires weights_in { length weights.old ≡ length drops.now }
    requires weighed_edges_in { length weighed_edges.old ≡ length drops.now }
    requires weighed_in { length weighed.old ≡ length drops.now }
    requires far_in { length far.old ≡ length drops.now }
    ensures { option_map contraction_of result ≡ contraction E.SCALE driven (bounds_of sizes.now) (map (drop_ends E.ends) drops.now) xs.now }
{
    write_reaches(edges, all, sizes, drops, xs, nodes, far)?;
    write_weights(weights, all)?;
    write_reaches(weighed_edges, weighed, sizes, drops, weights, nodes, far)?;
    let theta = in_size(theta_over(E::SCALE, weighed, weights))?;
    let edge = number_at(edges, driven)?;
    let last = number_at(weighed, driven)?;
    Some(Contraction { theta, edge, last })
}
