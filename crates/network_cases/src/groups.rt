// Networks with a group of three coupled branches, and their matrices. The raw ends of entries are those of another program, which follows the steps of
// solving over Python's whole numbers; the exact values beside them were worked by hand.
ghost use Rattle.std.specs.Prelude.{◌≤◌};
ghost use Rattle.net_branch.specs.Whole.{IsWholeNetwork};

use crate::assemblies::filled;
use crate::compare::expect;
use crate::coupling::{Far, Group, THREE, add_group, alike, coils, coupled};
use crate::fixtures::{FOUR_HUNDREDTHS, ONE, Part, TWO, ZERO, bank, coil, driven_at, network_of};
use admittance_box::CouplingValues;
use complex_interval::{Enclosure, Span};
use exact_fraction::Fraction;
use net_branch::{NetFault, Network};
use plain_elimination::Matrix;
use std::alloc::Global;
use std::process::Abort;
use std::test::Fail;

// 2^23, which has no interval.
const TOO_GREAT: Fraction = Fraction {
    num: 8_388_608,
    den: 1,
};

// Adds a group between buses to so many buses with so many banks: why a branch of it was refused, and the branches there are then.
fn answer_to_a_group(
    alloc: Global,
    buses: u32,
    banks: usize,
) -> Result<(Option<NetFault>, usize), Fail>
    requires { buses ≤ 400 }
{
    let parts = vec![in alloc; bank(0, ONE); banks]?;
    let mut network = network_of(alloc, buses, parts.as_slice())?;
    let values = coils(THREE, ONE, TWO, ZERO);
    let refused = add_group(alloc, &mut network, alike(values, Far::NextBuses))?;
    Ok((refused, network.branches.len()))
}

// A group between three buses and the next three is taken whole where its buses and 2,400 branches suffice, and otherwise up to the branch that is refused.
#[test]
fn a_group_is_complete_or_refused(rt: HostRuntime) -> Result<(), Fail> {
    for (buses, banks, wanted) in [
        (6, 0, (None, 3)),
        (3, 0, (Some(NetFault::NodeOutOfRange), 0)),
        (5, 0, (Some(NetFault::NodeOutOfRange), 2)),
        (6, 2397, (None, 2400)),
        (6, 2398, (Some(NetFault::TooMany), 2400)),
        (5, 2398, (Some(NetFault::NodeOutOfRange), 2400)),
    ] {
        let found = answer_to_a_group(rt.alloc(), buses, banks)?;
        expect(&rt, found, wanted, "the answer");
    }
    Ok(())
}

// The raw ends of an entry: low and high of the real part, then of the imaginary one.
fn ends_of(matrix: &Matrix<Span<40>>, row: u32, column: u32) -> Option<[i64; 4]> {
    if matrix.size() <= row || matrix.size() <= column {
        return None;
    }
    let entry = matrix.get(row, column);
    Some([
        entry.re.low(),
        entry.re.high(),
        entry.im.low(),
        entry.im.high(),
    ])
}

// A matrix of this size with these entries, row after row.
fn expect_rows(
    rt: &impl Abort,
    found: Result<Matrix<Span<40>>, u32>,
    size: u32,
    entries: &[[i64; 4]],
) -> Result<(), Fail> {
    let matrix = found?;
    expect(rt, matrix.size(), size, "the size");
    let mut rest = entries.iter();
    for row in 0..size {
        for column in 0..size {
            expect(
                rt,
                (row, column, ends_of(&matrix, row, column)),
                (row, column, rest.next().copied()),
                "an entry",
            );
        }
    }
    Ok(())
}

// The matrix of a network over one order, driven at a node.
fn matrix_at(
    alloc: Global,
    network: &Network,
    driven: u32,
    order: u32,
) -> Result<Result<Matrix<Span<40>>, u32>, Fail>
    requires { IsWholeNetwork network.now }
{
    let mut assembly = driven_at(alloc, network, driven)?;
    filled(alloc, &mut assembly, order, order)
}

// The rows (3, 1, 0), (1, 3, 2) and (0, 2, 3) have the inverse of the rows (5, -3, 2), (-3, 9, -6) and (2, -6, 8), each over 12. The third branch writes
// 3 as 6/2.
#[test]
fn a_group_to_ground_has_the_inverse_of_its_reactances(rt: HostRuntime) -> Result<(), Fail> {
    let values = coils(THREE, ONE, TWO, ZERO);
    let group = Group {
        third: Fraction { num: 6, den: 2 },
        ..alike(values, Far::Ground)
    };
    let network = coupled(rt.alloc(), 3, &[], group)?;
    let matrix = matrix_at(rt.alloc(), &network, 2, 1_000_000)?;
    let entries = [
        [0, 0, -458_129_844_908, -458_129_844_906],
        [0, 0, 274_877_906_943, 274_877_906_945],
        [0, 0, -183_251_937_964, -183_251_937_962],
        [0, 0, 274_877_906_942, 274_877_906_946],
        [0, 0, -824_633_720_834, -824_633_720_830],
        [0, 0, 549_755_813_886, 549_755_813_890],
        [0, 0, -183_251_937_964, -183_251_937_961],
        [0, 0, 549_755_813_886, 549_755_813_890],
        [0, 0, -733_007_751_852, -733_007_751_849],
    ];
    expect_rows(&rt, matrix, 3, entries.as_slice())
}

// At the order 2, with r = 0.3, a mutual resistance of 0.1, k = 0.5 and m = 50.
#[test]
fn a_group_with_resistance_and_skin_effect(rt: HostRuntime) -> Result<(), Fail> {
    let half = Fraction { num: 1, den: 2 };
    let values = CouplingValues {
        self_r: Fraction { num: 3, den: 10 },
        self_x: THREE,
        mutual_r: Fraction { num: 1, den: 10 },
        x_ab: ONE,
        x_bc: TWO,
        x_ca: half,
        k: half,
        m: Fraction { num: 50, den: 1 },
    };
    let network = coupled(rt.alloc(), 3, &[], alike(values, Far::Ground))?;
    let matrix = matrix_at(rt.alloc(), &network, 2, 2_000_000)?;
    let entries = [
        [
            11_428_301_334,
            11_428_301_338,
            -206_705_678_424,
            -206_705_678_421,
        ],
        [
            -8_988_927_181,
            -8_988_927_175,
            81_922_127_803,
            81_922_127_807,
        ],
        [
            7_268_456_351,
            7_268_456_356,
            -19_744_760_524,
            -19_744_760_520,
        ],
        [
            -8_988_927_181,
            -8_988_927_176,
            81_922_127_803,
            81_922_127_807,
        ],
        [
            35_814_376_629,
            35_814_376_637,
            -359_206_010_914,
            -359_206_010_909,
        ],
        [
            -29_239_990_556,
            -29_239_990_550,
            224_764_488_057,
            224_764_488_062,
        ],
        [
            7_268_456_352,
            7_268_456_356,
            -19_744_760_523,
            -19_744_760_520,
        ],
        [
            -29_239_990_556,
            -29_239_990_550,
            224_764_488_057,
            224_764_488_061,
        ],
        [
            31_773_586_094,
            31_773_586_099,
            -328_536_372_217,
            -328_536_372_213,
        ],
    ];
    expect_rows(&rt, matrix, 3, entries.as_slice())
}

// Of a group between buses only the second phase is live, by a bank of 0.04 at its far end: 3/4 of that phase alone, though its admittance is that of the
// whole group.
#[test]
fn dead_phases_add_no_entry(rt: HostRuntime) -> Result<(), Fail> {
    let values = coils(THREE, ONE, TWO, ZERO);
    let parts = [bank(4, FOUR_HUNDREDTHS)];
    let network = coupled(
        rt.alloc(),
        6,
        parts.as_slice(),
        alike(values, Far::NextBuses),
    )?;
    let matrix = matrix_at(rt.alloc(), &network, 4, 1_000_000)?;
    let entries = [
        [0, 0, -824_633_720_834, -824_633_720_830],
        [0, 0, 824_633_720_830, 824_633_720_834],
        [0, 0, 824_633_720_830, 824_633_720_834],
        [0, 0, -780_653_255_723, -780_653_255_718],
    ];
    expect_rows(&rt, matrix, 2, entries.as_slice())
}

// The first branch without a value in the matrix over one order of so many buses, driven at the last one, with these parts and then a group.
fn without_value(
    alloc: Global,
    buses: u32,
    parts: &[Part],
    group: Group,
) -> Result<Option<u32>, Fail>
    requires some { 1 ≤ buses }
    requires few { buses ≤ 400 }
{
    let network = coupled(alloc, buses, parts, group)?;
    Ok(matrix_at(alloc, &network, buses - 1, 1_000_000)?.err())
}

// The first branch without a value is the group's first, whatever it is that has none. All phases alike have no inverse; the ratio 2^22 of the third branch
// has an interval and its square has none; nor has a reactance of 2^23.
#[test]
fn a_group_without_a_value_is_named_by_its_first_branch(rt: HostRuntime) -> Result<(), Fail> {
    let greatest = Fraction {
        num: 4_194_304,
        den: 1,
    };
    let lawful = coils(THREE, ONE, TWO, ZERO);
    let equal = coils(ONE, ONE, ONE, ONE);
    let beyond = coils(THREE, ONE, TWO, TOO_GREAT);
    let parts = [coil(0, ZERO)];
    for (ratio, values, wanted) in [
        (ONE, lawful, None),
        (ONE, equal, Some(1)),
        (greatest, lawful, Some(1)),
        (ONE, beyond, Some(1)),
    ] {
        let group = Group {
            ratio,
            ..alike(values, Far::Ground)
        };
        let found = without_value(rt.alloc(), 3, parts.as_slice(), group)?;
        expect(&rt, found, wanted, "the branch");
    }
    Ok(())
}

// Such a group between buses is named where a phase of it is live, and does no harm where none is.
#[test]
fn a_dead_group_needs_no_value(rt: HostRuntime) -> Result<(), Fail> {
    let beyond = coils(THREE, ONE, TWO, TOO_GREAT);
    let live = [coil(0, ZERO), bank(6, ONE)];
    let dead = [bank(6, ONE)];
    for (parts, wanted) in [(live.as_slice(), Some(2)), (dead.as_slice(), None)] {
        let found = without_value(rt.alloc(), 7, parts, alike(beyond, Far::NextBuses))?;
        expect(&rt, found, wanted, "the branch");
    }
    Ok(())
}
