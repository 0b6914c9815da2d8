// Matrices of small networks.
ghost use Rattle.std.specs.Prelude.{◌≡◌, ◌∷◌, [], IfOk};
ghost use Rattle.network_theory.specs.Network.{IsUncoupled};
ghost use Rattle.net_branch.specs.declared.network.Law.TheVariants.{Series};
ghost use Rattle.net_branch.specs.Exact.{exact_branch};
ghost use Rattle.net_branch.specs.Whole.{IsWholeNetwork};

use crate::compare::expect;
use crate::fixtures::{
    FOUR_HUNDREDTHS, ONE, TWO, ZERO, add, bank, coil, driven_at, fill, live_node, network_of, push,
    tap, tie, two_buses,
};
use admittance_box::{Assembly, Fill};
use complex_interval::{Enclosure, Span};
use exact_fraction::Fraction;
use net_branch::{Branch, Law, Network, NodeId, Tap, new_network};
use plain_elimination::{Failure, Matrix, reduce_to_last};
use sqlite_items::Items;
use std::alloc::Global;
use std::process::Abort;
use std::test::Fail;

const UNIT: i64 = 1_099_511_627_776;

const HALF: i64 = UNIT / 2;

const QUARTER: i64 = UNIT / 4;

// Three times 2^20, less 8.
const THREE_BANKS: i64 = 3_145_720 * UNIT;

/// The matrix over the orders from lo to hi, or the first branch with no value there.
pub fn filled(
    alloc: Global,
    assembly: &mut Assembly<Span<40>>,
    lo: u32,
    hi: u32,
) -> Result<Result<Matrix<Span<40>>, u32>, Fail> {
    if lo < 100_000 || hi < lo || 100_000_000 < hi {
        return Err("not an order".into());
    }
    let mut matrix = Matrix::new(alloc, assembly.size())?;
    match assembly.fill(lo, hi, &mut matrix) {
        Fill::Filled => Ok(Ok(matrix)),
        Fill::OutOfRange(branch) => Ok(Err(branch)),
    }
}

// The same of a network that is driven at a node.
fn matrix_of(
    alloc: Global,
    network: &Network,
    number: u32,
    lo: u32,
    hi: u32,
) -> Result<Result<Matrix<Span<40>>, u32>, Fail>
    requires { IsWholeNetwork network.now }
{
    let mut assembly = driven_at(alloc, network, number)?;
    filled(alloc, &mut assembly, lo, hi)
}

// The raw ends of the imaginary part of an entry whose real part is zero.
fn imaginary(matrix: &Matrix<Span<40>>, row: u32, column: u32) -> Option<(i64, i64)> {
    if matrix.size() <= row || matrix.size() <= column {
        return None;
    }
    let entry = matrix.get(row, column);
    if entry.re.low() == 0 && entry.re.high() == 0 {
        Some((entry.im.low(), entry.im.high()))
    } else {
        None
    }
}

// A matrix of this size with these entries, whose real parts are zero.
fn expect_entries(
    rt: &impl Abort,
    found: Result<Matrix<Span<40>>, u32>,
    size: u32,
    entries: &[(u32, u32, (i64, i64))],
) -> Result<(), Fail> {
    let matrix = found?;
    expect(rt, matrix.size(), size, "the size");
    for entry in entries {
        let (row, column, ends) = *entry;
        let found = imaginary(&matrix, row, column);
        expect(
            rt,
            (row, column, found),
            (row, column, Some(ends)),
            "an entry",
        );
    }
    Ok(())
}

// The step at which the reduction of a matrix meets a pivot that holds zero.
fn pivot_that_holds_zero(matrix: Matrix<Span<40>>) -> Option<u32> {
    let mut matrix = matrix;
    if matrix.size() < 1 {
        return None;
    }
    match reduce_to_last(&mut matrix) {
        Err(Failure::PivotHoldsZero(step)) => Some(step),
        _ => None,
    }
}

// -1/4 + 4·0.04 at node 0, which comes first, 1/4 between, and -1/2 at node 1; a ratio of 2 counts once and twice. About the order 5 the bus
// that is not driven resonates.
#[test]
fn matrices_of_two_buses(rt: HostRuntime) -> Result<(), Fail> {
    let with_a_bank = [coil(1, ZERO), tie(0, ONE, 1), bank(0, FOUR_HUNDREDTHS)];
    let with_a_ratio = [tie(0, TWO, 1), coil(1, ZERO)];
    for (parts, first, between) in [
        (
            with_a_bank.as_slice(),
            (-98_956_046_500, -98_956_046_496),
            (QUARTER, QUARTER),
        ),
        (with_a_ratio.as_slice(), (-UNIT, -UNIT), (HALF, HALF)),
    ] {
        let network = network_of(rt.alloc(), 2, parts)?;
        let matrix = matrix_of(rt.alloc(), &network, 1, 4_000_000, 4_000_000)?;
        let entries = [
            (0, 0, first),
            (0, 1, between),
            (1, 0, between),
            (1, 1, (-HALF, -HALF)),
        ];
        expect_entries(&rt, matrix, 2, entries.as_slice())?;
    }
    let network = two_buses(rt.alloc())?;
    let matrix = matrix_of(rt.alloc(), &network, 1, 4_990_000, 5_010_000)?;
    expect(&rt, pivot_that_holds_zero(matrix?), Some(1), "the step");
    Ok(())
}

// Three buses and two inner nodes, each with a coil to ground.
fn with_inner_nodes(alloc: Global) -> Result<Network, Fail>
    ensures { IfOk result IsWholeNetwork }
{
    let mut network = new_network(alloc, 3)?;
    add(&mut network)?;
    add(&mut network)?;
    let parts = [
        coil(0, ZERO),
        coil(1, ZERO),
        coil(2, ZERO),
        coil(3, ZERO),
        coil(4, ZERO),
    ];
    fill(alloc, &mut network, parts.as_slice())?;
    Ok(network)
}

fn place(assembly: &Assembly<Span<40>>, number: u32) -> Option<u32> {
    assembly.position(NodeId { number })
}

// The places of five nodes.
fn places(a: &Assembly<Span<40>>) -> [Option<u32>; 5] {
    [
        place(a, 0),
        place(a, 1),
        place(a, 2),
        place(a, 3),
        place(a, 4),
    ]
}

#[test]
fn inner_nodes_come_first_and_the_driven_one_last(rt: HostRuntime) -> Result<(), Fail> {
    let network = with_inner_nodes(rt.alloc())?;
    for (driven, wanted) in [
        (1, [Some(2), Some(4), Some(3), Some(0), Some(1)]),
        (3, [Some(1), Some(2), Some(3), Some(4), Some(0)]),
    ] {
        let assembly = driven_at(rt.alloc(), &network, driven)?;
        expect(
            &rt,
            (assembly.size(), places(&assembly)),
            (5, wanted),
            "the places",
        );
    }
    Ok(())
}

// The high end of the last entry's imaginary part, or the first branch with no value.
fn last_entry(
    alloc: Global,
    assembly: &mut Assembly<Span<40>>,
    order: u32,
) -> Result<Result<Option<i64>, u32>, Fail> {
    match filled(alloc, assembly, order, order)? {
        Ok(matrix) => Ok(Ok(imaginary(&matrix, 1, 1).map(|ends| ends.1))),
        Err(branch) => Ok(Err(branch)),
    }
}

// Two buses with five banks, of which three are of 2^22: that has an interval at scale 40, and the sum of two has none. Three times 2^20,
// less 1/h twice; then the sum of two banks out of range, and one bank.
#[test]
fn the_first_branch_without_a_value(rt: HostRuntime) -> Result<(), Fail> {
    let greatest = Fraction {
        num: 4_194_304,
        den: 1,
    };
    let parts = [
        coil(1, ZERO),
        tie(0, ONE, 1),
        bank(0, FOUR_HUNDREDTHS),
        bank(1, greatest),
        bank(0, ONE),
        bank(1, greatest),
        bank(1, greatest),
    ];
    let network = network_of(rt.alloc(), 2, parts.as_slice())?;
    let mut assembly = driven_at(rt.alloc(), &network, 1)?;
    for (order, wanted) in [
        (250_000, Ok(Some(THREE_BANKS))),
        (500_000, Err(6)),
        (1_000_001, Err(3)),
    ] {
        let found = last_entry(rt.alloc(), &mut assembly, order)?;
        expect(&rt, (order, found), (order, wanted), "the last entry");
    }
    Ok(())
}

// The law of a series branch of the reactance x.
fn law_of_coil(r: Fraction, m: Fraction, x: Fraction) -> Law
    ensures { result ≡ Series r r m x r }
{
    Law::Series {
        r,
        k: r,
        m,
        x,
        xc: r,
    }
}

// A branch of a law that belongs to no group.
fn branch_with(alloc: Global, taps: &[Tap], law: Law) -> Result<Branch, Fail>
    requires { IsUncoupled (exact_branch (record { taps = taps.now; law = law; group = 0; owner = 1 })) }
    ensures { IfOk result (λ branch. branch ≡ record { taps = taps.now; law = law; group = 0; owner = 1 }) }
{
    Ok(Branch {
        taps: Items::from_slice(alloc, taps)?,
        law,
        group: 0,
        owner: 1,
    })
}

// One bus with a branch to ground.
fn grounded(alloc: Global, taps: &[Tap], law: Law) -> Result<Network, Fail>
    requires { IsUncoupled (exact_branch (record { taps = taps.now; law = law; group = 0; owner = 1 })) }
    ensures whole { IfOk result IsWholeNetwork }
    ensures value { IfOk result (λ network. network ≡ record { buses = 1; nodes = 1; branches = record { taps = taps.now; law = law; group = 0; owner = 1 } ∷ [] }) }
{
    let mut network = new_network(alloc, 1)?;
    push(alloc, &mut network, branch_with(alloc, taps, law)?)?;
    Ok(network)
}

// The assembly between two such buses with coils.
fn between(
    alloc: Global,
    taps: &[Tap],
    low: Fraction,
    high: Fraction,
) -> Result<Assembly<Span<40>>, Fail> {
    let first = grounded(alloc, taps, law_of_coil(ZERO, ONE, low))?;
    let second = grounded(alloc, taps, law_of_coil(ZERO, ONE, high))?;
    let node = live_node(alloc, &first, 0)?;
    if low.at_most(high) {
        Ok(Assembly::between(alloc, &first, &second, node)?)
    } else {
        Err("no pair".into())
    }
}

// From -1 to -1/4.
#[test]
fn reactances_between_one_and_two(rt: HostRuntime) -> Result<(), Fail> {
    let taps = [tap(0, ONE)];
    let mut assembly = between(rt.alloc(), taps.as_slice(), ONE, TWO)?;
    let matrix = filled(rt.alloc(), &mut assembly, 1_000_000, 2_000_000)?;
    let entries = [(0, 0, (-UNIT, -QUARTER))];
    expect_entries(&rt, matrix, 1, entries.as_slice())
}
