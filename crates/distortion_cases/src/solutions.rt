// Solutions of orders, and the squares and bounds that follow. 1 per unit is 100 MVA at 10 kV; a demand current of 2500 A is a quarter of it.
ghost use Rattle.std.specs.Prelude.{◌≡◌, IfOk};
ghost use Rattle.network_theory.specs.Live.{Live};
ghost use Rattle.net_branch.specs.Exact.{exact_network};
ghost use Rattle.net_branch.specs.Whole.{IsWholeNetwork};

use crate::networks::{ONE, Part, ZERO, grounded, live_node, network_of};
use complex_interval::Span;
use distortion_bounds::{OrderSolver, Solved, VOLTAGE_RHO, bounds};
use exact_fraction::Fraction;
use net_branch::{Network, NodeId};
use node_injection::NodeInjection;
use plain_elimination::Failure;
use std::alloc::Global;
use std::fmt::Debug;
use std::process::Abort;
use std::test::Fail;

// Of a current of 1 per unit, in ten-thousandths of a percent: 400 percent of the demand current.
const CURRENT_RHO: Fraction = Fraction {
    num: 4_000_000,
    den: 1,
};

/// Ten-thousandths of a percent, if there are bounds.
type Bounds = Option<(u64, u64)>;

/// What a solver answers.
#[derive(Clone, Copy, PartialEq, Debug)]
enum Answer {
    Done,
    OutOfRange(u32),
    InjectionOutOfRange(u32),
    PivotHoldsZero(u32),
    EndOutOfRange(u32),
}

fn answer_of(solved: Solved) -> Answer {
    match solved {
        Solved::Done => Answer::Done,
        Solved::OutOfRange(branch) => Answer::OutOfRange(branch),
        Solved::InjectionOutOfRange(place) => Answer::InjectionOutOfRange(place),
        Solved::Failed(Failure::PivotHoldsZero(step)) => Answer::PivotHoldsZero(step),
        Solved::Failed(Failure::OutOfRange(step)) => Answer::EndOutOfRange(step),
    }
}

/// So many buses with these parts, a current of `re` per unit into a node at an order, the answer, and then the bounds of the voltages of nodes, and of
/// the currents from nodes into elements: the element's number and the node's.
#[derive(Clone, Copy)]
struct Case<'a> {
    label: &'a str,
    buses: u32,
    parts: &'a [Part],
    order: u32,
    at: u32,
    re: Fraction,
    answer: Answer,
    voltages: &'a [(u32, Bounds)],
    currents: &'a [(u32, u32, Bounds)],
}

fn expect<T: PartialEq + Debug + Drop>(rt: &impl Abort, found: T, wanted: T, label: &str) {
    assert_eq!(rt; found, wanted, "{label}");
}

// A solver of a network with this live node.
fn solver(alloc: Global, network: &Network, node: NodeId) -> Result<OrderSolver<Span<40>>, Fail>
    requires whole { IsWholeNetwork network.now }
    requires live { Live (exact_network network.now) node.number }
    ensures { IfOk result (λ s. s.network ≡ exact_network network.now) }
{
    Ok(OrderSolver::new(alloc, network)?)
}

// The answer for one current into a live node.
fn solve_at(
    solver: &mut OrderSolver<Span<40>>,
    order: u32,
    node: NodeId,
    re: Fraction,
) -> Result<Answer, Fail>
    requires { Live solver.old.network node.number }
{
    if order < 2 || 50 < order {
        return Err("not an order".into());
    }
    let injections = [NodeInjection { node, re, im: ZERO }];
    Ok(answer_of(solver.solve(order, &injections)))
}

fn voltage(solver: &OrderSolver<Span<40>>, number: u32) -> Bounds {
    let squares = solver.voltage(NodeId { number })?;
    let bounds = bounds(squares, 3, VOLTAGE_RHO, 40)?;
    Some((bounds.lo, bounds.hi))
}

fn current(solver: &mut OrderSolver<Span<40>>, owner: u32, number: u32) -> Bounds {
    let squares = solver.current(owner, NodeId { number })?;
    let bounds = bounds(squares, 1, CURRENT_RHO, 40)?;
    Some((bounds.lo, bounds.hi))
}

fn expect_bounds(rt: &impl Abort, solver: &mut OrderSolver<Span<40>>, case: &Case<'_>) {
    for (number, wanted) in case.voltages {
        expect(rt, voltage(solver, *number), *wanted, case.label);
    }
    for (owner, number, wanted) in case.currents {
        expect(rt, current(solver, *owner, *number), *wanted, case.label);
    }
}

// Before it solves an order a solver has no voltage.
fn expect_case(rt: &impl Abort, alloc: Global, case: &Case<'_>) -> Result<(), Fail> {
    if case.buses > 400 {
        return Err("too many buses".into());
    }
    let network = network_of(alloc, case.buses, case.parts)?;
    let node = live_node(alloc, &network, case.at)?;
    let mut solver = solver(alloc, &network, node)?;
    expect(rt, voltage(&solver, case.at), None, case.label);
    let answer = solve_at(&mut solver, case.order, node, case.re)?;
    expect(rt, answer, case.answer, case.label);
    expect_bounds(rt, &mut solver, case);
    Ok(())
}

fn expect_cases(rt: &impl Abort, alloc: Global, cases: &[Case<'_>]) -> Result<(), Fail> {
    for case in cases {
        expect_case(rt, alloc, case)?;
    }
    Ok(())
}

const TENTH: Fraction = Fraction { num: 1, den: 10 };

const HUNDREDTH: Fraction = Fraction { num: 1, den: 100 };

const TWO: Fraction = Fraction { num: 2, den: 1 };

// 2^23, which has no interval.
const TOO_GREAT: Fraction = Fraction {
    num: 8_388_608,
    den: 1,
};

// 100 A into bus 0 at order 5, behind a source of 1 ohm or of a tenth. An element without a branch there has no current; bus 1 is dead.
#[test]
fn one_bus(rt: HostRuntime) -> Result<(), Fail> {
    let ohm = [grounded(1, 0, ONE)];
    let tenth_of_an_ohm = [grounded(1, 0, TENTH)];
    let one = Case {
        label: "1 ohm",
        buses: 2,
        parts: &ohm,
        order: 5,
        at: 0,
        re: HUNDREDTH,
        answer: Answer::Done,
        voltages: &[(0, Some((86_602, 86_603))), (1, None)],
        currents: &[
            (1, 0, Some((39_999, 40_001))),
            (2, 0, Some((0, 0))),
            (1, 1, None),
        ],
    };
    let tenth = Case {
        label: "0.1 ohm",
        parts: &tenth_of_an_ohm,
        voltages: &[(0, Some((8_660, 8_661))), (1, None)],
        ..one
    };
    expect_cases(&rt, rt.alloc(), &[one, tenth])
}

// Bus 0 behind 1 ohm, and from there with the ratio 2 a branch of 1 ohm to bus 1, where 100 A come in at order 2: the branch carries 0.01 per unit to
// bus 0, the source 0.02, and the voltages are 0.04 and 0.1.
#[test]
fn behind_a_ratio(rt: HostRuntime) -> Result<(), Fail> {
    let between = Part {
        ratio: TWO,
        to: Some(1),
        ..grounded(2, 0, ONE)
    };
    let case = Case {
        label: "a ratio",
        buses: 2,
        parts: &[grounded(1, 0, ONE), between],
        order: 2,
        at: 1,
        re: HUNDREDTH,
        answer: Answer::Done,
        voltages: &[(0, Some((69_282, 69_283))), (1, Some((173_205, 173_206)))],
        currents: &[
            (1, 0, Some((79_999, 80_001))),
            (2, 0, Some((79_999, 80_001))),
            (2, 1, Some((39_999, 40_001))),
            (1, 1, Some((0, 0))),
        ],
    };
    expect_cases(&rt, rt.alloc(), &[case])
}

// A capacitor of 25 ohms cancels a reactance of 1 ohm at order 5.
#[test]
fn no_solution(rt: HostRuntime) -> Result<(), Fail> {
    let capacitor = Part {
        xc: Fraction { num: 25, den: 1 },
        ..grounded(2, 0, ZERO)
    };
    let lawful = [grounded(1, 0, ONE), capacitor];
    let beyond = [grounded(1, 0, TOO_GREAT), capacitor];
    let resonance = Case {
        label: "a resonance",
        buses: 1,
        parts: &lawful,
        order: 5,
        at: 0,
        re: HUNDREDTH,
        answer: Answer::PivotHoldsZero(1),
        voltages: &[(0, None)],
        currents: &[(1, 0, None)],
    };
    let injection = Case {
        label: "an injection beyond 2^22",
        re: TOO_GREAT,
        order: 7,
        answer: Answer::InjectionOutOfRange(1),
        ..resonance
    };
    let branch = Case {
        label: "a reactance beyond 2^22",
        parts: &beyond,
        order: 7,
        answer: Answer::OutOfRange(0),
        ..resonance
    };
    expect_cases(&rt, rt.alloc(), &[resonance, injection, branch])
}
