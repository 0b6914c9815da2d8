// Estimates of networks with a group of three coupled branches, of which one phase is live.
ghost use Rattle.std.specs.Prelude.{◌≡◌, ◌≢◌, ◌≤◌, IfOk, OnOk, []};
ghost use Rattle.net_branch.specs.Whole.{IsWholeNetwork};
ghost use Rattle.network_theory.specs.Network.{IsGroup};
ghost use Rattle.net_branch.specs.Exact.{exact_branch};
ghost use Rattle.net_branch.specs.declared.network.Law.TheVariants.{Coupled3};

use crate::networks::{ONE, Value, ZERO, branch_of, grounded, live_node, push, tap, whole};
use crate::outcomes::{Expected, UNIT, expect, found};
use crate::pairs::exactly;
use admittance_box::{Assembly, CouplingValues};
use branchwise_bench::BranchwiseBench;
use exact_fraction::Fraction;
use net_branch::{Branch, Law, NetFault, Network, new_network, push_branch};
use sqlite_items::Items;
use std::alloc::Global;
use std::test::Fail;

// A phase of the group 7, from the bus of its place to the third after it.
fn phase(alloc: Global, place: u8, c: CouplingValues) -> Result<Branch, Fail>
    ensures law { IfOk result (λ branch. branch.law ≡ Coupled3 place c.self_r c.self_x c.mutual_r c.x_ab c.x_bc c.x_ca c.k c.m) }
    ensures group { IfOk result (λ branch. branch.group ≡ 7) }
    ensures owner { IfOk result (λ branch. branch.owner ≡ 3) }
{
    let near = u32::from(place);
    Ok(Branch {
        taps: Items::from_slice(alloc, &[tap(near, ONE), tap(near + 3, whole(-1))])?,
        law: Law::Coupled3 {
            place,
            self_r: c.self_r,
            self_x: c.self_x,
            mutual_r: c.mutual_r,
            x_ab: c.x_ab,
            x_bc: c.x_bc,
            x_ca: c.x_ca,
            k: c.k,
            m: c.m,
        },
        group: 7,
        owner: 3,
    })
}

// The three branches of a group, after no others.
fn push_group(
    alloc: Global,
    network: &mut Network,
    a: Branch,
    b: Branch,
    c: Branch,
) -> Result<(), NetFault>
    requires whole { IsWholeNetwork network.old }
    requires three { IsGroup (exact_branch a) (exact_branch b) (exact_branch c) }
    requires none { network.old.branches ≡ [] }
    ensures { OnOk result (IsWholeNetwork network.new) }
{
    push_branch(alloc, network, a)?;
    push_branch(alloc, network, b)?;
    push_branch(alloc, network, c)?;
    Ok(())
}

// Six buses with such a group, and a resistance of 1/2 to ground at the far end of the second phase: only that phase is live.
fn with_group(alloc: Global, values: CouplingValues) -> Result<Network, Fail>
    ensures { IfOk result IsWholeNetwork }
{
    let a = phase(alloc, 0, values)?;
    let b = phase(alloc, 1, values)?;
    let c = phase(alloc, 2, values)?;
    let mut network = new_network(alloc, 6)?;
    let Ok(()) = push_group(alloc, &mut network, a, b, c) else {
        return Err("refused".into());
    };
    let load = grounded(4, Value::Resistance(Fraction { num: 1, den: 2 }));
    push(alloc, &mut network, branch_of(alloc, &load)?)?;
    Ok(network)
}

// What is estimated at order 1.
fn estimated(alloc: Global, values: CouplingValues, driven: u32) -> Result<Expected, Fail> {
    let network = with_group(alloc, values)?;
    let node = live_node(alloc, &network, driven)?;
    let assembly = Assembly::new(alloc, &network, node)?;
    let mut bench = BranchwiseBench::new(alloc, &assembly)?;
    Ok(found(bench.estimate(whole(0), 1_000_000, 1_000_000)))
}

// Ninths.
fn ninths(num: i8) -> Fraction {
    Fraction {
        num: i128::from(num),
        den: 9,
    }
}

// A group without reactance, of this resistance of a phase and this one between two.
fn resistances(self_r: Fraction, mutual_r: Fraction) -> CouplingValues {
    CouplingValues {
        self_r,
        self_x: ZERO,
        mutual_r,
        x_ab: ZERO,
        x_bc: ZERO,
        x_ca: ZERO,
        k: ZERO,
        m: ONE,
    }
}

// 3(5/9 + 1/9) is 2 and 3(5/9 - 2/9) is 1, so the four branches have the admittances 1/2 and 1, and a phase alone 2 · 1/2 + 1 = 2. It stands in
// series with a resistance of 1/2.
#[test]
fn one_phase_of_a_group(rt: HostRuntime) -> Result<(), Fail> {
    let even = resistances(ninths(5), ninths(-1));
    let equal_by_value = CouplingValues {
        x_bc: Fraction { num: 0, den: 3 },
        ..even
    };
    let uneven = CouplingValues {
        x_ca: whole(1),
        ..even
    };
    let too_great = CouplingValues {
        mutual_r: whole(1 << 40),
        ..even
    };
    let cases = [
        ("an even group", even, 1, exactly(UNIT)),
        ("at its far end", even, 4, exactly(UNIT / 2)),
        (
            "with values that are equal by cross products",
            equal_by_value,
            1,
            exactly(UNIT),
        ),
        (
            "with unequal mutual reactances",
            uneven,
            1,
            Expected::OutOfRange,
        ),
        (
            "with a value out of range",
            too_great,
            1,
            Expected::OutOfRange,
        ),
    ];
    for (label, values, driven, expected) in cases {
        expect(&rt, estimated(rt.alloc(), values, driven)?, expected, label);
    }
    Ok(())
}
