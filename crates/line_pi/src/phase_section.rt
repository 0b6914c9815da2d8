// The sections of a line in three phases, one after another. The inner nodes come in threes, and each section has a group of its own.
ghost use Rattle.std.specs.Prelude.{◌≡◌, ◌+◌, ◌*◌, ◌-◌, ◌≤◌, ◌<◌, ◌^◌, [], ◌∷◌, ◌++◌, map, option_map, IfOk, OnOk};
ghost use Rattle.net_branch.specs.Exact.{exact_law, exact_branch};
ghost use Rattle.net_branch.specs.declared.limits.TheConstants.{MAX_NODES};
ghost use Rattle.study_model.specs.declared.limits.TheConstants.{MAX_BUSES, MAX_SECTIONS};
ghost use Rattle.element_parts.specs.Expansion.{to_ground, between};
ghost use Rattle.element_parts.specs.Couplings.{exact_coupling};
ghost use Rattle.element_parts.specs.Phases.{first_node, next_phase};
ghost use Rattle.line_pi.specs.PhaseLines.{each_to_ground, each_to_next, phase_end, phase_section, phase_cascade};

use element_parts::{Coupling, between, first_node, next_phase, push_group_between, to_ground};
use net_branch::{Branch, Law};
use sqlite_items::Items;
use std::alloc::{AllocError, Global};
use study_model::Line;

/// What each section of a line is: its coupled phases, and the laws at each of its ends from each phase to ground and between each two phases,
/// where there are any.
#[derive(Clone, Copy)]
pub struct PhaseLaws {
    pub values: Coupling,
    pub shunt: Option<Law>,
    pub pair: Option<Law>,
}

/// Adds a branch from the node of a phase to ground.
fn push_to_ground(
    alloc: Global,
    branches: &mut Items<Branch>,
    node: u32,
    phase: u32,
    law: Law,
    owner: u32,
) -> Result<(), AllocError>
    requires node { node < 2 ^ 31 }
    requires phase { phase < 3 }
    ensures { OnOk result (map exact_branch branches.new ≡ map exact_branch branches.old ++ to_ground (node + phase) (exact_law law) owner ∷ []) }
{
    branches.push(to_ground(alloc, node + phase, law, owner)?)?;
    Ok(())
}

/// Adds a branch from the node of each phase to ground, where there is a law.
#[tactic(auto, using(element_parts::proofs::InPhases::added_in_phases))]
fn push_each_to_ground(
    alloc: Global,
    branches: &mut Items<Branch>,
    law: Option<Law>,
    node: u32,
    owner: u32,
) -> Result<(), AllocError>
    requires { node < 2 ^ 31 }
    ensures { OnOk result (map exact_branch branches.new ≡ map exact_branch branches.old ++ each_to_ground (option_map exact_law law) node owner) }
{
    let Some(law) = law else {
        return Ok(());
    };
    push_to_ground(alloc, branches, node, 0, law, owner)?;
    push_to_ground(alloc, branches, node, 1, law, owner)?;
    push_to_ground(alloc, branches, node, 2, law, owner)
}

/// Adds a branch between the node of a phase and that of the next phase.
fn push_to_next(
    alloc: Global,
    branches: &mut Items<Branch>,
    node: u32,
    phase: u32,
    law: Law,
    owner: u32,
) -> Result<(), AllocError>
    requires node { node < 2 ^ 31 }
    requires phase { phase < 3 }
    ensures { OnOk result (map exact_branch branches.new ≡ map exact_branch branches.old ++ between (node + phase) (node + next_phase phase) (exact_law law) owner ∷ []) }
{
    let next = node + next_phase(phase);
    branches.push(between(alloc, node + phase, next, law, owner)?)?;
    Ok(())
}

/// Adds a branch between each two phases, a and b, b and c, c and a, where there is a law.
#[tactic(auto, using(element_parts::proofs::InPhases::added_in_phases))]
fn push_each_to_next(
    alloc: Global,
    branches: &mut Items<Branch>,
    law: Option<Law>,
    node: u32,
    owner: u32,
) -> Result<(), AllocError>
    requires { node < 2 ^ 31 }
    ensures { OnOk result (map exact_branch branches.new ≡ map exact_branch branches.old ++ each_to_next (option_map exact_law law) node owner) }
{
    let Some(law) = law else {
        return Ok(());
    };
    push_to_next(alloc, branches, node, 0, law, owner)?;
    push_to_next(alloc, branches, node, 1, law, owner)?;
    push_to_next(alloc, branches, node, 2, law, owner)
}

/// Adds the branches of an end of a section.
fn push_phase_end(
    alloc: Global,
    branches: &mut Items<Branch>,
    laws: PhaseLaws,
    node: u32,
    owner: u32,
) -> Result<(), AllocError>
    requires { node < 2 ^ 31 }
    ensures { OnOk result (map exact_branch branches.new ≡ map exact_branch branches.old ++ phase_end (option_map exact_law laws.shunt) (option_map exact_law laws.pair) node owner) }
{
    push_each_to_ground(alloc, branches, laws.shunt, node, owner)?;
    push_each_to_next(alloc, branches, laws.pair, node, owner)
}

/// Adds a section between two ends, of which the first nodes are those of phase a: its group of three, then the branches of its near end and of
/// its far end.
fn push_phase_section(
    alloc: Global,
    branches: &mut Items<Branch>,
    laws: PhaseLaws,
    near: u32,
    far: u32,
    group: u32,
    owner: u32,
) -> Result<(), AllocError>
    requires near { near < 2 ^ 31 }
    requires far { far < 2 ^ 31 }
    ensures { OnOk result (map exact_branch branches.new ≡ map exact_branch branches.old ++ phase_section (exact_coupling laws.values) (option_map exact_law laws.shunt) (option_map exact_law laws.pair) near far group owner) }
{
    push_group_between(alloc, branches, near, far, laws.values, group, owner)?;
    push_phase_end(alloc, branches, laws, near, owner)?;
    push_phase_end(alloc, branches, laws, far, owner)
}

/// The branches of a line whose sections have these laws: from its first bus over its inner nodes, which are numbered from `next` on, to its
/// second bus. Its groups are numbered from `group` on.
pub fn phase_cascade(
    alloc: Global,
    line: &Line,
    laws: PhaseLaws,
    next: u32,
    group: u32,
    owner: u32,
) -> Result<Items<Branch>, AllocError>
    requires some { 1 ≤ line.now.sections }
    requires few { line.now.sections ≤ MAX_SECTIONS }
    requires from { line.now.from < MAX_BUSES }
    requires to { line.now.to < MAX_BUSES }
    requires next { next ≤ MAX_NODES }
    requires group { group < 2 ^ 31 }
    ensures { IfOk result (λ branches. map exact_branch branches ≡ phase_cascade (exact_coupling laws.values) (option_map exact_law laws.shunt) (option_map exact_law laws.pair) (first_node line.now.from) next (line.now.sections - 1) (first_node line.now.to) group owner) }
{
    let mut branches = Items::new(alloc);
    let mut near = first_node(line.from);
    let inner = line.sections - 1;
    for i in 0..inner {
        let far = next + 3 * i;
        push_phase_section(alloc, &mut branches, laws, near, far, group + i, owner)?;
        near = far;
    }
    let far = first_node(line.to);
    push_phase_section(alloc, &mut branches, laws, near, far, group + inner, owner)?;
    Ok(branches)
}
