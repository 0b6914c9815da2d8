// The sections of a line, one after another: each section's shunts stand at both its ends, so two sections share the node between.
ghost use Rattle.std.specs.Prelude.{◌≡◌, ◌-◌, ◌≤◌, ◌++◌, map, IfOk, OnOk};
ghost use Rattle.net_branch.specs.Exact.{exact_law, exact_branch};
ghost use Rattle.net_branch.specs.declared.limits.TheConstants.{MAX_NODES};
ghost use Rattle.study_model.specs.declared.limits.TheConstants.{MAX_SECTIONS};
ghost use Rattle.element_parts.specs.Expansion.{to_ground};
ghost use Rattle.line_pi.specs.Lines.{pi_section, cascade};

use element_parts::{between, to_ground};
use net_branch::{Branch, Law};
use sqlite_items::Items;
use std::alloc::{AllocError, Global};
use study_model::Line;

/// Adds branches of the laws of an end from a node to ground.
fn push_end(
    alloc: Global,
    branches: &mut Items<Branch>,
    node: u32,
    end: &[Law],
    owner: u32,
) -> Result<(), AllocError>
    ensures { OnOk result (map exact_branch branches.new ≡ map exact_branch branches.old ++ map (λ law. to_ground node law owner) (map exact_law end.now)) }
{
    for law in end {
        branches.push(to_ground(alloc, node, *law, owner)?)?;
    }
    Ok(())
}

/// Adds a section between two nodes: its series law, then the laws of an end at its near end and at its far end.
fn push_section(
    alloc: Global,
    branches: &mut Items<Branch>,
    series: Law,
    end: &[Law],
    near: u32,
    far: u32,
    owner: u32,
) -> Result<(), AllocError>
    ensures { OnOk result (map exact_branch branches.new ≡ map exact_branch branches.old ++ pi_section (exact_law series) (map exact_law end.now) near far owner) }
{
    branches.push(between(alloc, near, far, series, owner)?)?;
    push_end(alloc, branches, near, end, owner)?;
    push_end(alloc, branches, far, end, owner)
}

/// The branches of a line whose sections have one series law and one end: from its first bus over its inner nodes, which are numbered from
/// `next` on, to its second bus.
pub fn cascade(
    alloc: Global,
    line: &Line,
    series: Law,
    end: &[Law],
    next: u32,
    owner: u32,
) -> Result<Items<Branch>, AllocError>
    requires some { 1 ≤ line.now.sections }
    requires few { line.now.sections ≤ MAX_SECTIONS }
    requires next { next ≤ MAX_NODES }
    ensures { IfOk result (λ branches. map exact_branch branches ≡ cascade (exact_law series) (map exact_law end.now) line.now.from next (line.now.sections - 1) line.now.to owner) }
{
    let mut branches = Items::new(alloc);
    let mut near = line.from;
    for i in 0..line.sections - 1 {
        let far = next + i;
        push_section(alloc, &mut branches, series, end, near, far, owner)?;
        near = far;
    }
    push_section(alloc, &mut branches, series, end, near, line.to, owner)?;
    Ok(branches)
}
