// Currents of a line of three coupled phases, whose near ends are the nodes 0, 1 and 2 and its far ends the nodes 3, 4 and 5.
ghost use Rattle.std.specs.Prelude.{◌≡◌, ◌≢◌, IfOk, OnOk, length};
ghost use Rattle.std.specs.List.{AllByRecursion};
ghost use Rattle.network_theory.specs.Live.{Live};
ghost use Rattle.network_theory.specs.Network.{IsGroup, IsUncoupled};
ghost use Rattle.net_branch.specs.Exact.{exact_branch, exact_network};
ghost use Rattle.net_branch.specs.Whole.{IsWholeNetwork};
ghost use Rattle.net_branch.specs.declared.network.Law.TheVariants.{Coupled3};

use admittance_box::{Assembly, CouplingValues};
use complex_interval::{Enclosure, Rect, Span};
use distortion_bounds::{OrderSolver, Solved, Squares, VOLTAGE_RHO, bounds};
use exact_fraction::Fraction;
use net_branch::{Branch, Law, NetFault, Network, NodeId, Tap, live, new_network, push_branch};
use node_injection::NodeInjection;
use plain_elimination::Column;
use sqlite_items::Items;
use std::alloc::Global;
use std::fmt::Debug;
use std::process::Abort;
use std::test::Fail;

const ZERO: Fraction = Fraction { num: 0, den: 1 };

const ONE: Fraction = Fraction { num: 1, den: 1 };

const MINUS_ONE: Fraction = Fraction { num: -1, den: 1 };

/// The element of the line, and those of the coils at its ends.
const LINE: u32 = 2;

const COIL: u32 = 3;

// Compares what was found with what was wanted. An assertion that stands in a test costs its proof more than this call does.
fn expect<T: PartialEq + Debug + Drop>(rt: &impl Abort, found: T, wanted: T, label: &str) {
    assert_eq!(rt; found, wanted, "{label}");
}

// A fraction num/den.
fn over(num: i64, den: i64) -> Fraction {
    match Fraction::new(i128::from(num), i128::from(den)) {
        Some(value) => value,
        None => ZERO,
    }
}

fn tap(number: u32, ratio: Fraction) -> Tap {
    Tap {
        node: NodeId { number },
        ratio,
    }
}

// A coil from a node to ground.
fn coil(alloc: Global, number: u32, x: Fraction) -> Result<Branch, Fail>
    ensures { IfOk result (λ branch. IsUncoupled (exact_branch branch)) }
{
    Ok(Branch {
        taps: Items::from_slice(alloc, &[tap(number, ONE)])?,
        law: Law::Series {
            r: ZERO,
            k: ZERO,
            m: ONE,
            x,
            xc: ZERO,
        },
        group: 0,
        owner: COIL,
    })
}

#[tactic(auto, using(net_branch::proofs::Wholes::uncoupled_next, net_branch::proofs::Wholes::uncoupled_grouped, net_branch::proofs::Wholes::whole_growing))]
fn push(alloc: Global, network: &mut Network, branch: Branch) -> Result<(), NetFault>
    requires whole { IsWholeNetwork network.old }
    requires uncoupled { IsUncoupled (exact_branch branch) }
    ensures { IsWholeNetwork network.new }
{
    push_branch(alloc, network, branch)?;
    Ok(())
}

// A phase of the line.
fn phase(alloc: Global, nodes: [u32; 2], place: u8, c: CouplingValues) -> Result<Branch, Fail>
    ensures law { IfOk result (λ branch. branch.law ≡ Coupled3 place c.self_r c.self_x c.mutual_r c.x_ab c.x_bc c.x_ca c.k c.m) }
    ensures group { IfOk result (λ branch. branch.group ≡ 7) }
    ensures owner { IfOk result (λ branch. branch.owner ≡ 2) }
{
    let [from, to] = nodes;
    Ok(Branch {
        taps: Items::from_slice(alloc, &[tap(from, ONE), tap(to, MINUS_ONE)])?,
        law: Law::Coupled3 {
            place,
            self_r: c.self_r,
            self_x: c.self_x,
            mutual_r: c.mutual_r,
            x_ab: c.x_ab,
            x_bc: c.x_bc,
            x_ca: c.x_ca,
            k: c.k,
            m: c.m,
        },
        group: 7,
        owner: LINE,
    })
}

// The three branches of a group whose number is new.
fn push_group(
    alloc: Global,
    network: &mut Network,
    a: Branch,
    b: Branch,
    c: Branch,
) -> Result<(), NetFault>
    requires whole { IsWholeNetwork network.old }
    requires three { IsGroup (exact_branch a) (exact_branch b) (exact_branch c) }
    requires apart { AllByRecursion (λ o. o.group ≢ a.group) network.old.branches }
    ensures { OnOk result (IsWholeNetwork network.new) }
{
    push_branch(alloc, network, a)?;
    push_branch(alloc, network, b)?;
    push_branch(alloc, network, c)?;
    Ok(())
}

// The line alone.
fn line_of(alloc: Global, values: CouplingValues) -> Result<Network, Fail>
    ensures { IfOk result IsWholeNetwork }
{
    let a = phase(alloc, [0, 3], 0, values)?;
    let b = phase(alloc, [1, 4], 1, values)?;
    let c = phase(alloc, [2, 5], 2, values)?;
    let mut network = new_network(alloc, 6)?;
    match push_group(alloc, &mut network, a, b, c) {
        Ok(()) => Ok(network),
        Err(_) => Err("refused".into()),
    }
}

// The line, and a coil to ground at each of these nodes.
fn network_of(
    alloc: Global,
    values: CouplingValues,
    coils: &[(u32, Fraction)],
) -> Result<Network, Fail>
    ensures { IfOk result IsWholeNetwork }
{
    let mut network = line_of(alloc, values)?;
    for (number, x) in coils {
        push(alloc, &mut network, coil(alloc, *number, *x)?)?;
    }
    Ok(network)
}

// A line without resistance of this reactance, with these between the pairs of phases.
fn reactances(own: i64, ab: i64, bc: i64, ca: i64) -> CouplingValues {
    CouplingValues {
        self_r: ZERO,
        self_x: over(own, 1),
        mutual_r: ZERO,
        x_ab: over(ab, 1),
        x_bc: over(bc, 1),
        x_ca: over(ca, 1),
        k: ZERO,
        m: ONE,
    }
}

// The node of this number, which must be live.
fn live_node(alloc: Global, network: &Network, number: u32) -> Result<NodeId, Fail>
    requires { IsWholeNetwork network.now }
    ensures { IfOk result (λ node. Live (exact_network network.now) node.number) }
{
    let marks = live(alloc, network)?;
    if number < network.nodes && marks[number as usize] {
        Ok(NodeId { number })
    } else {
        Err("dead".into())
    }
}

// A whole number.
fn whole(re: i64, im: i64) -> Result<Rect<Span<40>>, Fail> {
    match (
        Span::from_fraction(over(re, 1)),
        Span::from_fraction(over(im, 1)),
    ) {
        (Some(re), Some(im)) => Ok(Rect { re, im }),
        _ => Err("too large".into()),
    }
}

// These numbers in a column's rows.
fn fill(column: &mut Column<Span<40>>, size: u32, values: &[(i64, i64)]) -> Result<(), Fail>
    requires rows { length column.old ≡ size }
    requires numbers { length values.now ≡ size }
    ensures { length column.new ≡ length column.old }
{
    for row in 0..size {
        let (re, im) = values[row as usize];
        column.set(row, whole(re, im)?);
    }
    Ok(())
}

// Whether a rectangle holds re/2 + j·im/2, in units of 1/2^40 less than 1000 wide each way.
fn is_near(found: Rect<Span<40>>, re: i64, im: i64) -> bool {
    is_about(found.re, re) && is_about(found.im, im)
}

fn is_about(found: Span<40>, halves: i64) -> bool {
    let exact = i128::from(halves) << 39;
    let low = i128::from(found.low());
    let high = i128::from(found.high());
    low <= exact && exact <= high && high - low < 1_000
}

// The current of an element at a node at the order 2, from the voltages of the live nodes in ascending order, of which `last` is the last.
fn current_at(
    alloc: Global,
    network: &Network,
    last: u32,
    volts: &[(i64, i64)],
    owner: u32,
    number: u32,
) -> Result<Option<Rect<Span<40>>>, Fail>
    requires { IsWholeNetwork network.now }
{
    let last = live_node(alloc, network, last)?;
    let node = live_node(alloc, network, number)?;
    let mut assembly: Assembly<Span<40>> = Assembly::new(alloc, network, last)?;
    let size = assembly.size();
    let mut column = Column::new(alloc, size)?;
    if volts.len() != size as usize {
        return Err("not so many live nodes".into());
    }
    fill(&mut column, size, volts)?;
    Ok(assembly.current(2_000_000, 2_000_000, owner, node, &column))
}

// Whether it is near re/2 + j·im/2.
fn is_current_near(found: Option<Rect<Span<40>>>, re: i64, im: i64) -> bool {
    match found {
        Some(found) => is_near(found, re, im),
        None => false,
    }
}

// The rows (3, 1, 0), (1, 3, 2) and (0, 2, 3) have the inverse of the rows (5, -3, 2), (-3, 9, -6) and (2, -6, 8), each over 12. The drops 12, 0 and 12j
// have the currents 2 - 5j, -6 + 3j and 8 - 2j at the order 1, and their halves at the order 2. A coil of 14 has -7j.
#[test]
fn currents_from_voltages(rt: HostRuntime) -> Result<(), Fail> {
    let coils = [(0, ONE), (1, ONE), (2, ONE)];
    let network = network_of(rt.alloc(), reactances(3, 1, 2, 0), coils.as_slice())?;
    let volts = [(14, 0), (5, 0), (0, 12), (2, 0), (5, 0), (0, 0)];
    let rows = [
        (LINE, 0, 2, -5),
        (LINE, 1, -6, 3),
        (LINE, 2, 8, -2),
        (LINE, 3, -2, 5),
        (LINE, 4, 6, -3),
        (LINE, 5, -8, 2),
        (COIL, 0, 0, -14),
        (9, 0, 0, 0),
    ];
    for (owner, node, re, im) in rows {
        let found = current_at(rt.alloc(), &network, 5, volts.as_slice(), owner, node)?;
        expect(
            &rt,
            (owner, node, is_current_near(found, re, im)),
            (owner, node, true),
            "a current",
        );
    }
    Ok(())
}

// With a coil at the node 4 alone the first and the third phase are dead, and drop 0: of a drop of 12 in the second there is 9/12 at the order 1.
#[test]
fn a_line_of_which_one_phase_is_live(rt: HostRuntime) -> Result<(), Fail> {
    let coils = [(4, ONE)];
    let network = network_of(rt.alloc(), reactances(3, 1, 2, 0), coils.as_slice())?;
    let volts = [(20, 0), (8, 0)];
    for (node, im) in [(1, -9), (4, 9)] {
        let found = current_at(rt.alloc(), &network, 4, volts.as_slice(), LINE, node)?;
        expect(
            &rt,
            (node, is_current_near(found, 0, im)),
            (node, true),
            "a current",
        );
    }
    Ok(())
}

// A line of a reactance past 2^22 has no value, which the coils don't mind.
#[test]
fn a_line_without_a_value(rt: HostRuntime) -> Result<(), Fail> {
    let coils = [(0, ONE), (1, ONE), (2, ONE)];
    let network = network_of(rt.alloc(), reactances(1 << 23, 1, 1, 1), coils.as_slice())?;
    let volts = [(0, 0), (0, 0), (0, 0), (0, 0), (0, 0), (0, 0)];
    for (owner, node, wanted) in [(LINE, 0, false), (LINE, 5, false), (COIL, 0, true)] {
        let found = current_at(rt.alloc(), &network, 5, volts.as_slice(), owner, node)?;
        expect(
            &rt,
            (owner, node, found.is_some()),
            (owner, node, wanted),
            "a value",
        );
    }
    Ok(())
}

// A solver that has solved the order 2 for 0.01 per unit into a node.
fn solved(alloc: Global, network: &Network, number: u32) -> Result<OrderSolver<Span<40>>, Fail>
    requires { IsWholeNetwork network.now }
{
    let node = live_node(alloc, network, number)?;
    let mut solver: OrderSolver<Span<40>> = OrderSolver::new(alloc, network)?;
    let injections = [NodeInjection {
        node,
        re: over(1, 100),
        im: ZERO,
    }];
    match solver.solve(2, injections.as_slice()) {
        Solved::Done => Ok(solver),
        _ => Err("no solution".into()),
    }
}

/// 10^15·s/(v·il): a demand current of a quarter of 1 per unit.
const CURRENT_RHO: Fraction = Fraction {
    num: 4_000_000,
    den: 1,
};

// The bounds of a voltage's distortion, or of a current's.
fn bounds_of(squares: Option<Squares>, is_voltage: bool) -> Option<(u64, u64)> {
    let squares = squares?;
    if squares.lo > 1 << 125 || squares.hi > 1 << 125 {
        return None;
    }
    let bounds = if is_voltage {
        bounds(squares, 3, VOLTAGE_RHO, 40)?
    } else {
        bounds(squares, 1, CURRENT_RHO, 40)?
    };
    Some((bounds.lo, bounds.hi))
}

// Three phases of 3 with 1 between each two: to equal currents they are 5, to currents that sum to 0 they are 2. With coils of 1 at the near ends and of
// 6 at the far ends, 1/2 of the former goes into the line, and 2/3 of the latter. So of 0.01 into the node 3 the first phase has 11/18, the others -1/18
// each, and the coil at the node 3 has 7/18.
#[test]
fn currents_of_an_order(rt: HostRuntime) -> Result<(), Fail> {
    let six = over(6, 1);
    let coils = [(0, ONE), (1, ONE), (2, ONE), (3, six), (4, six), (5, six)];
    let network = network_of(rt.alloc(), reactances(3, 1, 1, 1), coils.as_slice())?;
    let mut solver = solved(rt.alloc(), &network, 3)?;
    let rows = [
        (LINE, 0, Some((24_444, 24_445))),
        (LINE, 1, Some((2_222, 2_223))),
        (LINE, 2, Some((2_222, 2_223))),
        (LINE, 3, Some((24_444, 24_445))),
        (LINE, 4, Some((2_222, 2_223))),
        (LINE, 5, Some((2_222, 2_223))),
        (COIL, 3, Some((15_555, 15_556))),
        (COIL, 0, Some((24_444, 24_445))),
    ];
    for (owner, number, wanted) in rows {
        let found = bounds_of(solver.current(owner, NodeId { number }), false);
        expect(
            &rt,
            (owner, number, found),
            (owner, number, wanted),
            "a current",
        );
    }
    for (number, wanted) in [(0, (21_169, 21_170)), (3, (80_829, 80_830))] {
        let found = bounds_of(solver.voltage(NodeId { number }), true);
        expect(&rt, (number, found), (number, Some(wanted)), "a voltage");
    }
    Ok(())
}
