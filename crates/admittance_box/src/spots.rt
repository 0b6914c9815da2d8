// Which entries of a network's matrix may be other than zero.
ghost use Rattle.std.specs.Prelude.{◌≡◌, ◌≤◌, ◌++◌, IfOk, length, map};
ghost use Rattle.network_theory.specs.Live.{Live};
ghost use Rattle.net_branch.specs.Exact.{exact_branch, exact_law, exact_network, exact_tap};
ghost use Rattle.admittance_box.specs.Addends.{place_in_group};
ghost use Rattle.net_branch.specs.Whole.{IsWholeNetwork};
ghost use Rattle.admittance_box.specs.Pattern.{MatrixIsZeroOutside, spots_with, tap_spots, row_spots, group_spots, next_spots, first_spots, branch_spots, IsPattern, IsPatternOf};
ghost use Rattle.plain_elimination.specs.declared.limits.TheConstants.{MAX_SIZE};

use crate::branches::{branches_from, place_in_group};
use crate::node_ordering::order_nodes;
use crate::taps::find_place;
use net_branch::{Branch, Network, NodeId, Tap, live};
use plain_elimination::{Pattern, Spot};
use std::alloc::{AllocError, Global};

// Adds the spots of a row, if it is one, with each of `taps`.
fn push_spots(
    spots: &mut Vec<Spot>,
    ordering: &[u32],
    row: Option<u32>,
    taps: &[Tap],
) -> Result<(), AllocError>
    requires { length ordering.now ≤ MAX_SIZE }
    ensures { IfOk result (λ _. spots.new.items ≡ spots.old.items ++ spots_with ordering.now row (map exact_tap taps.now)) }
{
    for tap in taps {
        let column = find_place(ordering, tap.node.number);
        if let (Some(row), Some(column)) = (row, column) {
            spots.push(Spot { row, column })?;
        }
    }
    Ok(())
}

// Adds the spots of each of `taps` with each of `others`.
fn push_tap_spots(
    spots: &mut Vec<Spot>,
    ordering: &[u32],
    taps: &[Tap],
    others: &[Tap],
) -> Result<(), AllocError>
    requires { length ordering.now ≤ MAX_SIZE }
    ensures { IfOk result (λ _. spots.new.items ≡ spots.old.items ++ tap_spots ordering.now (map exact_tap taps.now) (map exact_tap others.now)) }
{
    for tap in taps {
        let row = find_place(ordering, tap.node.number);
        push_spots(spots, ordering, row, others)?;
    }
    Ok(())
}

// Adds the spots of a branch's taps with those of each branch of its group.
#[tactic(auto, using(std::proofs::lemmas::List::append_assoc))]
fn push_row_spots(
    spots: &mut Vec<Spot>,
    ordering: &[u32],
    branch: &Branch,
    a: &Branch,
    b: &Branch,
    c: &Branch,
) -> Result<(), AllocError>
    requires { length ordering.now ≤ MAX_SIZE }
    ensures { IfOk result (λ _. spots.new.items ≡ spots.old.items ++ row_spots ordering.now (exact_branch branch.now).taps (exact_branch a.now) (exact_branch b.now) (exact_branch c.now)) }
{
    let taps = branch.taps.as_slice();
    push_tap_spots(spots, ordering, taps, a.taps.as_slice())?;
    push_tap_spots(spots, ordering, taps, b.taps.as_slice())?;
    push_tap_spots(spots, ordering, taps, c.taps.as_slice())
}

// Adds the spots of each two branches of a group.
#[tactic(auto, using(std::proofs::lemmas::List::append_assoc))]
fn push_group_spots(
    spots: &mut Vec<Spot>,
    ordering: &[u32],
    a: &Branch,
    b: &Branch,
    c: &Branch,
) -> Result<(), AllocError>
    requires { length ordering.now ≤ MAX_SIZE }
    ensures { IfOk result (λ _. spots.new.items ≡ spots.old.items ++ group_spots ordering.now (exact_branch a.now) (exact_branch b.now) (exact_branch c.now)) }
{
    push_row_spots(spots, ordering, a, a, b, c)?;
    push_row_spots(spots, ordering, b, a, b, c)?;
    push_row_spots(spots, ordering, c, a, b, c)
}

// Adds the spots of the group of the branch a and the next two.
fn push_next_spots(
    spots: &mut Vec<Spot>,
    ordering: &[u32],
    a: &Branch,
    rest: &[Branch],
) -> Result<(), AllocError>
    requires { length ordering.now ≤ MAX_SIZE }
    ensures { IfOk result (λ _. spots.new.items ≡ spots.old.items ++ next_spots ordering.now (exact_branch a.now) (map exact_branch rest.now)) }
{
    match rest {
        [b, c, ..] => push_group_spots(spots, ordering, a, b, c),
        _ => Ok(()),
    }
}

// Adds the spots of a branch, with the branches after it: a group goes as one, at its first branch.
fn push_first_spots(
    spots: &mut Vec<Spot>,
    ordering: &[u32],
    branch: &Branch,
    rest: &[Branch],
) -> Result<(), AllocError>
    requires { length ordering.now ≤ MAX_SIZE }
    ensures { IfOk result (λ _. spots.new.items ≡ spots.old.items ++ first_spots ordering.now (place_in_group (exact_law branch.now.law)) (exact_branch branch.now) (map exact_branch rest.now)) }
{
    let taps = branch.taps.as_slice();
    match place_in_group(branch.law) {
        None => push_tap_spots(spots, ordering, taps, taps),
        Some(0) => push_next_spots(spots, ordering, branch, rest),
        Some(_) => Ok(()),
    }
}

// The spots of each branch.
fn spots_of(alloc: Global, ordering: &[u32], branches: &[Branch]) -> Result<Vec<Spot>, AllocError>
    requires { length ordering.now ≤ MAX_SIZE }
    ensures { IfOk result (λ spots. spots.items ≡ branch_spots ordering.now (map exact_branch branches.now)) }
{
    let mut spots = Vec::new(alloc);
    for i in 0..branches.len() {
        let rest = branches_from(branches, i + 1);
        push_first_spots(&mut spots, ordering, &branches[i], rest)?;
    }
    Ok(spots)
}

/// The pattern of these branches: as many rows as nodes in the ordering, and the spots of each branch.
pub fn pattern_of(
    alloc: Global,
    ordering: &[u32],
    branches: &[Branch],
) -> Result<Pattern, AllocError>
    requires { length ordering.now ≤ MAX_SIZE }
    ensures { IfOk result (λ p. IsPattern ordering.now (map exact_branch branches.now) p.size p.places.items) }
{
    let places = spots_of(alloc, ordering, branches)?;
    Ok(Pattern {
        size: ordering.len() as u32,
        places,
    })
}

/// The pattern of the matrix of a network that is driven at a live node: the number of live nodes, and for each branch of live
/// nodes and each two of its taps, or of its group's, the entry in the row of the one's node and the column of the other's. Each matrix that an
/// assembly of the network, or of a pair from it on, fills is exact zero elsewhere.
pub fn pattern(alloc: Global, network: &Network, driven: NodeId) -> Result<Pattern, AllocError>
    requires whole { IsWholeNetwork network.now }
    requires live { Live (exact_network network.now) driven.number }
    ensures { IfOk result (λ p. IsPatternOf (exact_network network.now) driven.number p.size p.places.items) }
{
    let marks = live(alloc, network)?;
    let ordering = order_nodes(alloc, network, marks.as_slice(), driven.number)?;
    let pattern = pattern_of(alloc, ordering.as_slice(), network.branches.as_slice())?;
    Ok(pattern)
}

/// The matrix of a box is exact zero outside the pattern's spots.
pub fn zero_outside()
    ensures law { MatrixIsZeroOutside }
{}
