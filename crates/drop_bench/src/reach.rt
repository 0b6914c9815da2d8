// How far drops of given sizes reach.
ghost use Rattle.std.specs.Prelude.{◌≡◌, ◌≤◌, length, map};
ghost use Rattle.std.specs.List.{All};
ghost use Rattle.std.specs.Option.{option_map};
ghost use Rattle.middle_inverse.specs.Lists.{each, each_two};
ghost use Rattle.branchwise_test.specs.Reach.{add_up, products_from, edge_from};
ghost use Rattle.drop_bench.specs.Drops.{drop_ends};

use crate::drops::DropIntervals;
use crate::sums::{add_up, edge_from, products_from};
use complex_interval::Enclosure;

/// What (unit - C·P) makes of sizes at each node.
pub fn write_nodes(scale: u32, nodes: &mut [u64], left: &[Vec<u64>], numbers: &[u64]) -> Option<()>
    requires scale_in { scale ≤ 48 }
    requires count { length nodes.old ≡ length left.now }
    requires wide { All (λ r. length r.items ≤ length numbers.now) left.now }
    ensures { option_map (λ _. nodes.new) result ≡ each (λ row. products_from scale 0 row numbers.now) (map (λ r. r.items) left.now) }
{
    for i in 0..left.len() {
        nodes[i] = products_from(scale, 0, left[i].as_slice(), numbers)?;
    }
    Some(())
}

/// So at each drop, by what it makes at the nodes.
pub fn write_edges<E: Enclosure>(
    edges: &mut [u64],
    drops: &[DropIntervals<E>],
    nodes: &[u64],
) -> Option<()>
    requires { length edges.old ≡ length drops.now }
    ensures { option_map (λ _. edges.new) result ≡ each (λ d. edge_from E.SCALE 0 d.taps nodes.now) (map (drop_ends E.ends) drops.now) }
{
    for i in 0..drops.len() {
        edges[i] = edge_from(drops[i].taps.as_slice(), nodes)?;
    }
    Some(())
}

/// What the rests make of sizes: each rest, on entry in `far`, times the number at its place.
pub fn times_numbers(scale: u32, far: &mut [u64], numbers: &[u64]) -> Option<()>
    requires scale_in { scale ≤ 48 }
    requires count { length far.old ≡ length numbers.now }
    ensures { option_map (λ _. far.new) result ≡ each_two (add_up scale 0) far.old numbers.now }
{
    for i in 0..far.len() {
        far[i] = add_up(scale, 0, far[i], numbers[i])?;
    }
    Some(())
}

/// All that sizes reach: to each edge, on entry in `reached`, the products of its row with what the rests make.
pub fn add_products(
    scale: u32,
    reached: &mut [u64],
    transfers: &[Vec<u64>],
    far: &[u64],
) -> Option<()>
    requires scale_in { scale ≤ 48 }
    requires count { length reached.old ≡ length transfers.now }
    requires wide { All (λ r. length r.items ≤ length far.now) transfers.now }
    ensures { option_map (λ _. reached.new) result ≡ each_two (λ edge row. products_from scale edge row far.now) reached.old (map (λ r. r.items) transfers.now) }
{
    for i in 0..reached.len() {
        reached[i] = products_from(scale, reached[i], transfers[i].as_slice(), far)?;
    }
    Some(())
}
