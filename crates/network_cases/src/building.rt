// Networks as they are built: each refusal, and the limits at both sides.
ghost use Rattle.std.specs.Prelude.{◌≡◌, ◌+◌, max, false, IfOk};
ghost use Rattle.std.specs.List.{AllByRecursion};
ghost use Rattle.network_theory.specs.Network.{IsUncoupled};
ghost use Rattle.net_branch.specs.Exact.{exact_branch};
ghost use Rattle.net_branch.specs.Refusal.{is_zero_law};
ghost use Rattle.net_branch.specs.Whole.{IsWholeNetwork, AreAtNodes};

use crate::compare::expect;
use crate::fixtures::{
    MINUS_ONE, ONE, Part, Values, ZERO, add, bank, branch_of, counts, push, tap,
};
use crate::live_nodes::expect_live;
use exact_fraction::Fraction;
use net_branch::{AddFault, Branch, Law, NetFault, Network, append_element, new_network};
use sqlite_items::Items;
use std::alloc::{AllocError, Global};
use std::process::Abort;
use std::test::Fail;

#[test]
fn nodes_are_added_up_to_the_limit(rt: HostRuntime) -> Result<(), Fail> {
    let three = new_network(rt.alloc(), 3)?;
    expect(
        &rt,
        (three.buses, counts(&three)),
        (3, (3, 0)),
        "three buses",
    );
    let mut network = new_network(rt.alloc(), 398)?;
    let found = (add(&mut network), add(&mut network), add(&mut network));
    expect(
        &rt,
        found,
        (Ok(398), Ok(399), Err(NetFault::TooMany)),
        "three nodes more",
    );
    expect(
        &rt,
        (network.buses, network.nodes),
        (398, 400),
        "the full network",
    );
    Ok(())
}

// What is done to a network.
#[derive(Clone, Copy)]
enum Step {
    Push(Part),
    // so many shunts at node 0
    Shunts(u32),
    // an element with so many inner nodes: a series branch between two nodes and a shunt at the second
    Tie(u32, u32, u32),
}

// Why a branch and why an element was refused.
type Answer = (Option<NetFault>, Option<AddFault>);

const DONE: Answer = (None, None);

const OUT_OF_RANGE: Answer = (Some(NetFault::NodeOutOfRange), None);

const TOO_MANY: Answer = (Some(NetFault::TooMany), None);

const ZERO_LAW: Answer = (Some(NetFault::ZeroLaw), None);

const ELEMENT_TOO_MANY: Answer = (None, Some(AddFault::TooMany));

fn push_shunts(alloc: Global, network: &mut Network, count: u32) -> Result<(), Fail>
    requires { IsWholeNetwork network.old }
    ensures { IsWholeNetwork network.new }
{
    for _i in 0..count {
        push(alloc, network, branch_of(alloc, &bank(0, ONE))?)?;
    }
    Ok(())
}

fn element_of(alloc: Global, from: u32, to: u32) -> Result<Items<Branch>, AllocError>
    ensures taps { IfOk result (AreAtNodes (max from to + 1)) }
    ensures uncoupled { IfOk result (AllByRecursion (λ b. IsUncoupled (exact_branch b))) }
    ensures laws { IfOk result (AllByRecursion (λ b. is_zero_law b.law ≡ false)) }
{
    let between = Items::from_slice(alloc, &[tap(from, ONE), tap(to, ONE)])?;
    let to_ground = Items::from_slice(alloc, &[tap(to, ONE)])?;
    let mut branches = Items::new(alloc);
    branches.push(Branch {
        taps: between,
        law: Law::Series {
            r: ZERO,
            k: ZERO,
            m: ONE,
            x: ONE,
            xc: ZERO,
        },
        group: 0,
        owner: 2,
    })?;
    branches.push(Branch {
        taps: to_ground,
        law: Law::Shunt { b: ONE },
        group: 0,
        owner: 2,
    })?;
    Ok(branches)
}

fn add_tie(
    alloc: Global,
    network: &mut Network,
    inner: u32,
    from: u32,
    to: u32,
) -> Result<Result<(), AddFault>, Fail>
    requires { IsWholeNetwork network.old }
    ensures { IsWholeNetwork network.new }
{
    let branches = element_of(alloc, from, to)?;
    let nodes = u64::from(network.nodes) + u64::from(inner);
    if u64::from(from) < nodes && u64::from(to) < nodes {
        Ok(append_element(alloc, network, inner, branches))
    } else {
        Err("no node".into())
    }
}

fn take(alloc: Global, network: &mut Network, step: Step) -> Result<Answer, Fail>
    requires { IsWholeNetwork network.old }
    ensures { IsWholeNetwork network.new }
{
    match step {
        Step::Push(part) => {
            let branch = branch_of(alloc, &part)?;
            Ok((push(alloc, network, branch).err(), None))
        }
        Step::Shunts(count) => {
            push_shunts(alloc, network, count)?;
            Ok(DONE)
        }
        Step::Tie(inner, from, to) => Ok((None, add_tie(alloc, network, inner, from, to)?.err())),
    }
}

// Each step, taken in its turn, is answered so and leaves so many nodes and branches.
fn expect_steps(
    rt: &impl Abort,
    alloc: Global,
    network: &mut Network,
    rows: &[(&str, Step, Answer, (u32, usize))],
) -> Result<(), Fail>
    requires { IsWholeNetwork network.old }
    ensures { IsWholeNetwork network.new }
{
    for row in rows {
        let (label, step, answer, wanted) = *row;
        let found = take(alloc, network, step)?;
        expect(rt, (found, counts(network)), (answer, wanted), label);
    }
    Ok(())
}

// A series branch of r, x and xc between nodes 0 and 1.
fn between(r: Fraction, x: Fraction, xc: Fraction) -> Step {
    Step::Push(Part {
        from: tap(0, ONE),
        to: Some(tap(1, MINUS_ONE)),
        values: Values::Series { r, x, xc },
    })
}

// A shunt of nothing from node 0 to this one.
fn nothing_to(number: u32) -> Step {
    Step::Push(Part {
        from: tap(0, ONE),
        to: Some(tap(number, ONE)),
        values: Values::Shunt(ZERO),
    })
}

#[test]
fn refusals_come_in_their_order(rt: HostRuntime) -> Result<(), Fail> {
    let mut network = new_network(rt.alloc(), 2)?;
    let rows = [
        ("nothing, out of range", nothing_to(2), OUT_OF_RANGE, (2, 0)),
        (
            "out of range",
            Step::Push(bank(2, ONE)),
            OUT_OF_RANGE,
            (2, 0),
        ),
        ("no shunt", Step::Push(bank(1, ZERO)), ZERO_LAW, (2, 0)),
        ("no branch", between(ZERO, ZERO, ZERO), ZERO_LAW, (2, 0)),
        // one of r, x and xc other than zero is enough
        ("r alone", between(ONE, ZERO, ZERO), DONE, (2, 1)),
        ("x alone", between(ZERO, ONE, ZERO), DONE, (2, 2)),
        ("xc alone", between(ZERO, ZERO, ONE), DONE, (2, 3)),
        ("x below zero", between(ZERO, MINUS_ONE, ZERO), DONE, (2, 4)),
    ];
    expect_steps(&rt, rt.alloc(), &mut network, rows.as_slice())
}

#[test]
fn branches_are_pushed_up_to_the_limit(rt: HostRuntime) -> Result<(), Fail> {
    let mut network = new_network(rt.alloc(), 1)?;
    let rows = [
        ("2399", Step::Shunts(2399), DONE, (1, 2399)),
        ("the last", Step::Push(bank(0, ONE)), DONE, (1, 2400)),
        ("one more", Step::Push(bank(0, ONE)), TOO_MANY, (1, 2400)),
        // a node out of range comes before, and a law of zero after
        (
            "out of range",
            Step::Push(bank(1, ONE)),
            OUT_OF_RANGE,
            (1, 2400),
        ),
        ("no shunt", Step::Push(bank(0, ZERO)), TOO_MANY, (1, 2400)),
    ];
    expect_steps(&rt, rt.alloc(), &mut network, rows.as_slice())
}

#[test]
fn elements_are_added_whole_or_not_at_all(rt: HostRuntime) -> Result<(), Fail> {
    let mut network = new_network(rt.alloc(), 398)?;
    let steps = [
        ("2396 shunts", Step::Shunts(2396), DONE, (398, 2396)),
        ("an element", Step::Tie(2, 398, 399), DONE, (400, 2398)),
        (
            "a node too many",
            Step::Tie(1, 0, 1),
            ELEMENT_TOO_MANY,
            (400, 2398),
        ),
        ("a shunt more", Step::Shunts(1), DONE, (400, 2399)),
        (
            "a branch too many",
            Step::Tie(0, 0, 1),
            ELEMENT_TOO_MANY,
            (400, 2399),
        ),
    ];
    expect_steps(&rt, rt.alloc(), &mut network, steps.as_slice())?;
    let mut wanted = [false; 400];
    wanted[0] = true;
    wanted[398] = true;
    wanted[399] = true;
    expect_live(
        &rt,
        rt.alloc(),
        &network,
        wanted.as_slice(),
        "bus 0 and the element",
    )
}

// How many taps a branch has.
fn taps_of(network: &Network, place: usize) -> Option<usize> {
    match network.branches.get(place) {
        Some(branch) => Some(branch.taps.len()),
        None => None,
    }
}

#[test]
fn elements_fill_a_network(rt: HostRuntime) -> Result<(), Fail> {
    let mut network = new_network(rt.alloc(), 2)?;
    let steps = [
        ("2398 shunts", Step::Shunts(2398), DONE, (2, 2398)),
        ("an element", Step::Tie(0, 0, 1), DONE, (2, 2400)),
        ("one more", Step::Tie(0, 0, 1), ELEMENT_TOO_MANY, (2, 2400)),
    ];
    expect_steps(&rt, rt.alloc(), &mut network, steps.as_slice())?;
    let taps = (taps_of(&network, 2398), taps_of(&network, 2399));
    expect(&rt, taps, (Some(2), Some(1)), "the element's taps");
    Ok(())
}
