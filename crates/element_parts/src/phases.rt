// Branches of the three phases of an element: alike in each phase, or coupled in groups of three.
ghost use Rattle.std.specs.Prelude.{◌≡◌, ◌+◌, ◌*◌, ◌<◌, ◌≤◌, ◌≤ℤ◌, pos, ◌^◌, [], ◌∷◌, ◌++◌, map, IfOk, OnOk};
ghost use Rattle.network_theory.specs.Branch.{Coupled3};
ghost use Rattle.study_model.specs.declared.limits.TheConstants.{MAX_BUSES};
ghost use Rattle.net_branch.specs.Exact.{exact_law, exact_branch};
ghost use Rattle.element_parts.specs.Expansion.{to_ground, between};
ghost use Rattle.element_parts.specs.Phases.{first_node, phase_node, place_of, next_phase, to_return, group_to_ground, group_between, coupling_share};
ghost use Rattle.element_parts.specs.Couplings.{exact_coupling};

use crate::branches::{between, to_ground};
use crate::per_unit::{as_written, mutual_share, self_share};
use exact_fraction::Fraction;
use fixed_decimal::Decimal;
use net_branch::{Branch, Law};
use sqlite_items::Items;
use std::alloc::{AllocError, Global};
use study_model::Phase;

/// The values that three coupled branches share, in per unit: the impedance of each, the mutual resistance of each two, the mutual
/// reactance of each two, and skin coefficients.
#[derive(Clone, Copy)]
pub struct Coupling {
    pub self_r: Fraction,
    pub self_x: Fraction,
    pub mutual_r: Fraction,
    pub x_ab: Fraction,
    pub x_bc: Fraction,
    pub x_ca: Fraction,
    pub k: Fraction,
    pub m: Fraction,
}

/// An impedance in ohms, in the positive and in the zero sequence.
#[derive(Clone, Copy)]
pub struct Ohms {
    pub r: Decimal,
    pub x: Decimal,
    pub r0: Decimal,
    pub x0: Decimal,
}

/// One of so many equal parts of three coupled phases, in per unit at a bus of `kv`, with skin coefficients: (z0 + 2·z)/3 for a phase by
/// itself, (z0 - z)/3 between two phases.
pub fn coupling_share(
    ohms: Ohms,
    skin_k: Decimal,
    skin_m: Decimal,
    mva: Decimal,
    kv: Decimal,
    parts: u32,
) -> Coupling
    requires kv { pos 1 ≤ℤ kv }
    requires some { 1 ≤ parts }
    requires few { parts ≤ 64 }
    ensures { exact_coupling result ≡ coupling_share ohms skin_k skin_m mva kv parts }
{
    let x = mutual_share(ohms.x, ohms.x0, mva, kv, parts);
    Coupling {
        self_r: self_share(ohms.r, ohms.r0, mva, kv, parts),
        self_x: self_share(ohms.x, ohms.x0, mva, kv, parts),
        mutual_r: mutual_share(ohms.r, ohms.r0, mva, kv, parts),
        x_ab: x,
        x_bc: x,
        x_ca: x,
        k: as_written(skin_k),
        m: as_written(skin_m),
    }
}

/// The first node of a bus of a network of three phases, which is that of phase a.
pub fn first_node(bus: u32) -> u32
    requires { bus < MAX_BUSES }
    ensures value { result ≡ first_node bus }
    ensures few { result < 3 * MAX_BUSES }
{
    3 * bus
}

/// The node of a phase of a bus of a network of three phases, by the phase's number from 0. (This project's own.)
pub fn phase_node(bus: u32, phase: u32) -> u32
    requires bus { bus < MAX_BUSES }
    requires phase { phase < 3 }
    ensures value { result ≡ phase_node bus phase }
    ensures few { result < 3 * MAX_BUSES }
{
    first_node(bus) + phase
}

/// The number of a phase, from 0.
pub fn place_of(phase: Phase) -> u32
    ensures value { result ≡ place_of phase }
    ensures few { result < 3 }
{
    match phase {
        Phase::A => 0,
        Phase::B => 1,
        Phase::C => 2,
    }
}

/// The phase after a phase: b after a, c after b, a after c.
pub fn next_phase(phase: u32) -> u32
    requires { phase < 3 }
    ensures value { result ≡ next_phase phase }
    ensures few { result < 3 }
{
    match phase {
        0 => 1,
        1 => 2,
        _ => 0,
    }
}

/// An uncoupled branch of an element from a node to ground, or to a neutral where there is one.
pub fn to_return(
    alloc: Global,
    neutral: Option<u32>,
    node: u32,
    law: Law,
    owner: u32,
) -> Result<Branch, AllocError>
    ensures { IfOk result (λ branch. exact_branch branch ≡ to_return neutral node (exact_law law) owner) }
{
    match neutral {
        None => to_ground(alloc, node, law, owner),
        Some(neutral) => between(alloc, node, neutral, law, owner),
    }
}

/// The law of the branch at a place of a group.
fn coupled(place: u8, values: Coupling) -> Law
    ensures { exact_law result ≡ Coupled3 place (exact_coupling values) }
{
    Law::Coupled3 {
        place,
        self_r: values.self_r,
        self_x: values.self_x,
        mutual_r: values.mutual_r,
        x_ab: values.x_ab,
        x_bc: values.x_bc,
        x_ca: values.x_ca,
        k: values.k,
        m: values.m,
    }
}

/// Adds a branch under the number of a group.
fn push_coupled(branches: &mut Items<Branch>, branch: Branch, group: u32) -> Result<(), AllocError>
    ensures { OnOk result (map exact_branch branches.new ≡ map exact_branch branches.old ++ record (exact_branch branch) { group = group } ∷ []) }
{
    let mut branch = branch;
    branch.group = group;
    branches.push(branch)?;
    Ok(())
}

/// Adds the branch of a phase in a group of three, from its node to ground.
fn push_one_to_ground(
    alloc: Global,
    branches: &mut Items<Branch>,
    node: u32,
    phase: u8,
    values: Coupling,
    group: u32,
    owner: u32,
) -> Result<(), AllocError>
    requires node { node < 2 ^ 31 }
    requires phase { phase < 3 }
    ensures { OnOk result (map exact_branch branches.new ≡ map exact_branch branches.old ++ record (to_ground (node + phase) (Coupled3 phase (exact_coupling values)) owner) { group = group } ∷ []) }
{
    let law = coupled(phase, values);
    let branch = to_ground(alloc, node + u32::from(phase), law, owner)?;
    push_coupled(branches, branch, group)
}

/// Adds a group of three: for each phase a branch from its node to ground, the first node being that of phase a.
#[tactic(auto, using(crate::proofs::InPhases::added_in_phases))]
pub fn push_group_to_ground(
    alloc: Global,
    branches: &mut Items<Branch>,
    node: u32,
    values: Coupling,
    group: u32,
    owner: u32,
) -> Result<(), AllocError>
    requires { node < 2 ^ 31 }
    ensures { OnOk result (map exact_branch branches.new ≡ map exact_branch branches.old ++ group_to_ground node (exact_coupling values) group owner) }
{
    push_one_to_ground(alloc, branches, node, 0, values, group, owner)?;
    push_one_to_ground(alloc, branches, node, 1, values, group, owner)?;
    push_one_to_ground(alloc, branches, node, 2, values, group, owner)
}

/// Adds the branch of a phase in a group of three, between its nodes at two ends.
fn push_one_between(
    alloc: Global,
    branches: &mut Items<Branch>,
    near: u32,
    far: u32,
    phase: u8,
    values: Coupling,
    group: u32,
    owner: u32,
) -> Result<(), AllocError>
    requires near { near < 2 ^ 31 }
    requires far { far < 2 ^ 31 }
    requires phase { phase < 3 }
    ensures { OnOk result (map exact_branch branches.new ≡ map exact_branch branches.old ++ record (between (near + phase) (far + phase) (Coupled3 phase (exact_coupling values)) owner) { group = group } ∷ []) }
{
    let law = coupled(phase, values);
    let place = u32::from(phase);
    let branch = between(alloc, near + place, far + place, law, owner)?;
    push_coupled(branches, branch, group)
}

/// Adds a group of three: for each phase a branch between its nodes at two ends, of which the first are those of phase a.
#[tactic(auto, using(crate::proofs::InPhases::added_in_phases))]
pub fn push_group_between(
    alloc: Global,
    branches: &mut Items<Branch>,
    near: u32,
    far: u32,
    values: Coupling,
    group: u32,
    owner: u32,
) -> Result<(), AllocError>
    requires near { near < 2 ^ 31 }
    requires far { far < 2 ^ 31 }
    ensures { OnOk result (map exact_branch branches.new ≡ map exact_branch branches.old ++ group_between near far (exact_coupling values) group owner) }
{
    push_one_between(alloc, branches, near, far, 0, values, group, owner)?;
    push_one_between(alloc, branches, near, far, 1, values, group, owner)?;
    push_one_between(alloc, branches, near, far, 2, values, group, owner)
}
