// Live nodes: of chains, islands, branches with ratios and groups.
ghost use Rattle.std.specs.Prelude.{IfOk};
ghost use Rattle.network_theory.specs.Network.{IsUncoupled};
ghost use Rattle.net_branch.specs.Exact.{exact_branch};
ghost use Rattle.net_branch.specs.Whole.{IsWholeNetwork};

use crate::compare::expect;
use crate::coupling::{Far, Group, coupled};
use crate::fixtures::{
    MINUS_ONE, ONE, Part, ZERO, add, bank, branch_of, coil, counts, network_of, push, tap, tie,
};
use admittance_box::CouplingValues;
use exact_fraction::Fraction;
use net_branch::{Branch, Network, Tap, live, new_network};
use sqlite_items::Items;
use std::alloc::Global;
use std::process::Abort;
use std::test::Fail;

/// Compares which nodes of a network are live.
pub fn expect_live(
    rt: &impl Abort,
    alloc: Global,
    network: &Network,
    wanted: &[bool],
    label: &str,
) -> Result<(), Fail>
    requires { IsWholeNetwork network.now }
{
    let values = live(alloc, network)?;
    assert!(rt; values.as_slice() == wanted, "{label}");
    Ok(())
}

// Which nodes of a network are live, and which are once it has one branch more.
fn expect_live_by(
    rt: &impl Abort,
    alloc: Global,
    network: Network,
    before: &[bool],
    more: Part,
    after: &[bool],
) -> Result<(), Fail>
    requires { IsWholeNetwork network }
{
    let mut network = network;
    expect_live(rt, alloc, &network, before, "before")?;
    push(alloc, &mut network, branch_of(alloc, &more)?)?;
    expect_live(rt, alloc, &network, after, "after")
}

// A chain is live from its grounded end, also where each branch stands before the one that makes it live; an island is dead.
#[test]
fn chains_and_islands(rt: HostRuntime) -> Result<(), Fail> {
    let chain = [
        tie(4, ONE, 5),
        tie(3, ONE, 4),
        tie(2, ONE, 3),
        tie(1, ONE, 2),
        tie(0, ONE, 1),
    ];
    let island = [tie(2, ONE, 3), tie(5, ONE, 1)];
    for (parts, grounded, wanted) in [
        (chain.as_slice(), bank(0, ONE), [true; 6]),
        (
            island.as_slice(),
            coil(1, ZERO),
            [false, true, false, false, false, true],
        ),
    ] {
        let network = network_of(rt.alloc(), 6, parts)?;
        expect_live_by(&rt, rt.alloc(), network, &[false; 6], grounded, &wanted)?;
    }
    Ok(())
}

// A branch of these taps, without resistance.
fn branch_at(alloc: Global, taps: &[Tap]) -> Result<Branch, Fail>
    ensures { IfOk result (λ branch. IsUncoupled (exact_branch branch)) }
{
    let mut branch = branch_of(alloc, &coil(0, ZERO))?;
    branch.taps = Items::from_slice(alloc, taps)?;
    Ok(branch)
}

// Three buses and the inner node 3, with a branch between bus 0 at the ratio 20, bus 2 and the inner node, and a branch of no
// taps, which makes nothing live.
fn with_ratios(alloc: Global) -> Result<Network, Fail>
    ensures { IfOk result IsWholeNetwork }
{
    let twenty = Fraction { num: 20, den: 1 };
    let mut network = new_network(alloc, 3)?;
    let inner = add(&mut network)?;
    let taps = [tap(0, twenty), tap(2, MINUS_ONE), tap(inner, ONE)];
    push(alloc, &mut network, branch_at(alloc, taps.as_slice())?)?;
    push(alloc, &mut network, branch_at(alloc, &[])?)?;
    Ok(network)
}

#[test]
fn a_branch_with_ratios_joins_its_three_nodes(rt: HostRuntime) -> Result<(), Fail> {
    let network = with_ratios(rt.alloc())?;
    let wanted = [true, false, true, true];
    expect_live_by(
        &rt,
        rt.alloc(),
        network,
        &[false; 4],
        coil(2, ZERO),
        &wanted,
    )
}

// Each value of a group is this one.
fn throughout(x: Fraction) -> CouplingValues {
    CouplingValues {
        self_r: x,
        self_x: x,
        mutual_r: x,
        x_ab: x,
        x_bc: x,
        x_ca: x,
        k: x,
        m: x,
    }
}

// One half, and two quarters.
#[test]
fn a_group_joins_no_phases(rt: HostRuntime) -> Result<(), Fail> {
    let group = Group {
        values: throughout(Fraction { num: 1, den: 2 }),
        far: Far::NextBuses,
        ratio: ONE,
        third: Fraction { num: 2, den: 4 },
    };
    let network = coupled(rt.alloc(), 6, &[], group)?;
    expect(&rt, counts(&network), (6, 3), "a group");
    let wanted = [false, true, false, false, true, false];
    expect_live_by(&rt, rt.alloc(), network, &[false; 6], bank(4, ONE), &wanted)
}
