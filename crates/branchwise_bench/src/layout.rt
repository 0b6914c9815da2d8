// The drops of a pair of networks, before anything counts at them.
ghost use Rattle.std.specs.Prelude.{◌≡◌, ◌++◌, [], IfOk, map};
ghost use Rattle.drop_bench.specs.Drops.{drop_ends};
ghost use Rattle.branchwise_bench.specs.Layout.{bare_node, bare_nodes, own_drop, own_drops};
ghost use Rattle.branchwise_live.specs.Live.{live_ends};

use admittance_box::{PlacedTap, TapProduct, exact_one};
use branchwise_live::LiveBranchIntervals;
use complex_interval::Enclosure;
use drop_bench::DropIntervals;
use middle_inverse::nought_point;
use std::alloc::{AllocError, Global};

// The drop of a node alone.
fn node_drop<E: Enclosure>(alloc: Global, place: u32) -> Result<DropIntervals<E>, AllocError>
    ensures { IfOk result (λ d. drop_ends E.ends d ≡ bare_node E.SCALE place) }
{
    let one = exact_one();
    let mut taps = Vec::new(alloc);
    taps.push(PlacedTap { place, ratio: one })?;
    let mut pairs = Vec::new(alloc);
    pairs.push(TapProduct {
        row: place,
        column: place,
        factor: one,
    })?;
    Ok(DropIntervals {
        taps,
        pairs,
        middle: nought_point(),
        rest: nought_point(),
    })
}

/// The drops of so many nodes.
pub fn node_drops<E: Enclosure>(
    alloc: Global,
    count: u32,
) -> Result<Vec<DropIntervals<E>>, AllocError>
    ensures { IfOk result (λ drops. map (drop_ends E.ends) drops.items ≡ bare_nodes E.SCALE 0 count) }
{
    let mut drops = Vec::new(alloc);
    for place in 0..count {
        drops.push(node_drop(alloc, place)?)?;
    }
    Ok(drops)
}

// Adds the drop of a branch to those before, if it has one of its own.
fn push_own_drop<E: Enclosure>(
    alloc: Global,
    drops: &mut Vec<DropIntervals<E>>,
    branch: &LiveBranchIntervals<E>,
) -> Result<(), AllocError>
    ensures { IfOk result (λ _. map (drop_ends E.ends) drops.new.items
        ≡ map (drop_ends E.ends) drops.old.items ++ own_drop (live_ends E.ends branch.now).taps (live_ends E.ends branch.now).pairs []) }
{
    if branch.pairs.len() < 2 {
        return Ok(());
    }
    let taps = Vec::from_slice(alloc, branch.taps.as_slice())?;
    let pairs = Vec::from_slice(alloc, branch.pairs.as_slice())?;
    drops.push(DropIntervals {
        taps,
        pairs,
        middle: nought_point(),
        rest: nought_point(),
    })?;
    Ok(())
}

/// Adds the drops of branches that have one of their own to those before.
pub fn push_own_drops<E: Enclosure>(
    alloc: Global,
    drops: &mut Vec<DropIntervals<E>>,
    branches: &[LiveBranchIntervals<E>],
) -> Result<(), AllocError>
    ensures { IfOk result (λ _. map (drop_ends E.ends) drops.new.items ≡ map (drop_ends E.ends) drops.old.items ++ own_drops (map (live_ends E.ends) branches.now)) }
{
    match branches {
        [] => Ok(()),
        [first, rest @ ..] => {
            push_own_drop(alloc, drops, first)?;
            push_own_drops(alloc, drops, rest)
        }
    }
}
