// The network of a drill: its scan over finer boxes gives those that come out of the reduction of full rows.
ghost use Rattle.std.specs.Prelude.{IfOk};
ghost use Rattle.net_branch.specs.Whole.{IsWholeNetwork};

use crate::compare::expect;
use crate::scans::{Asked, Row, expect_boxes, scan_of};
use admittance_box::{Assembly, Fill};
use band_subdivision::Scan;
use complex_interval::Span;
use drill_study::drill_study;
use net_branch::Network;
use network_cases::fixtures::driven_at;
use plain_elimination::{Matrix, reduce_to_last};
use scan_report::Kind;
use sequence_network::networks_of;
use std::alloc::Global;
use std::test::Fail;
use study_model::Method;

// 1/T for 20 ohms at 33 kV and 100 MVA, which is 1089/2000, in units of 1 / 2^40, rounded up.
const BOUND: u128 = 598_684_081_325;

const ASKED: Asked = Asked {
    band: [2_000_000, 2_100_000],
    finest: 1_000,
    locate: 1_000,
    kv: 33,
    ohms: [20_000_000, 20_000_000],
    method: Method::Elimination,
};

// The network of the drill of number 7.
fn drill_network(alloc: Global) -> Result<Network, Fail>
    ensures { IfOk result IsWholeNetwork }
{
    let study = drill_study(alloc, 7)?;
    let networks = networks_of(alloc, &study)?;
    Ok(networks.positive)
}

// Whether the reduction of a matrix leaves a rectangle whose numbers are at least the bound in size.
fn is_above(matrix: Matrix<Span<40>>) -> bool {
    let mut matrix = matrix;
    if matrix.size() < 1 {
        return false;
    }
    match reduce_to_last(&mut matrix) {
        Ok(left) => BOUND * BOUND <= left.low_square(),
        Err(_) => false,
    }
}

// Whether the orders from lo to hi are cleared by the reduction of full rows.
fn is_clear(
    alloc: Global,
    assembly: &mut Assembly<Span<40>>,
    lo: u32,
    hi: u32,
) -> Result<bool, Fail> {
    if hi < lo {
        return Err("no box".into());
    }
    let mut matrix = Matrix::new(alloc, assembly.size())?;
    match assembly.fill(lo, hi, &mut matrix) {
        Fill::Filled => Ok(is_above(matrix)),
        Fill::OutOfRange(_) => Ok(false),
    }
}

// Keeps the boxes of the band from lo to hi, each of which has to be cleared by the reduction of full rows.
fn plain_boxes(
    alloc: Global,
    assembly: &mut Assembly<Span<40>>,
    lo: u32,
    hi: u32,
    boxes: &mut Vec<Row>,
) -> Result<(), Fail> {
    if is_clear(alloc, assembly, lo, hi)? {
        boxes.push((lo, hi, Kind::Cleared))?;
        return Ok(());
    }
    if hi <= lo || hi - lo <= ASKED.finest {
        return Err("not cleared".into());
    }
    let middle = lo + (hi - lo) / 2;
    plain_boxes(alloc, assembly, lo, middle, boxes)?;
    plain_boxes(alloc, assembly, middle, hi, boxes)
}

// Another program, which has its own arithmetic, comes to 128 boxes as well.
#[test]
fn a_drill_over_fine_boxes(rt: HostRuntime) -> Result<(), Fail> {
    let network = drill_network(rt.alloc())?;
    let mut assembly = driven_at(rt.alloc(), &network, 59)?;
    let mut boxes = Vec::new(rt.alloc());
    plain_boxes(rt.alloc(), &mut assembly, 2_000_000, 2_100_000, &mut boxes)?;
    expect(&rt, boxes.len(), 128, "how many boxes");
    let mut scan: Scan<Span<40>> = scan_of(rt.alloc(), &network, 59, ASKED)?;
    expect_boxes(&rt, &mut scan, boxes.as_slice());
    Ok(())
}
