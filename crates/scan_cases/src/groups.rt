// Scans of a network with a group of three coupled branches, and of a node that isn't live.
use crate::scans::{Asked, Row, expect_boxes, scan_of, unfed_scan};
use band_subdivision::Scan;
use complex_interval::Span;
use network_cases::coupling::{Far, THREE, alike, coils, coupled};
use network_cases::fixtures::{ONE, TWO, ZERO};
use scan_report::Kind;
use std::test::Fail;
use study_model::Method;

// A band of micro-orders at 10 kV, where 1 per unit is 1 ohm, against 5 ohms.
fn against_five_ohms(from: u32, to: u32, finest: u32, locate: u32, method: Method) -> Asked {
    Asked {
        band: [from, to],
        finest,
        locate,
        kv: 10,
        ohms: [5_000_000, 5_000_000],
        method,
    }
}

fn peak(lo: u32, hi: u32, at: u32, micro_ohms: i128) -> Row {
    (lo, hi, Kind::Peak { at, micro_ohms })
}

// Without a current into the other phases |Z| of the third is 3h. Below the order 5/3 it is cleared, and above it is a peak; the boxes are those of the
// other program. The branch-wise part has no estimate of a group whose mutual reactances
// differ, and clears nothing more.
#[test]
fn a_scan_of_a_phase(rt: HostRuntime) -> Result<(), Fail> {
    let values = coils(THREE, ONE, TWO, ZERO);
    let network = coupled(rt.alloc(), 3, &[], alike(values, Far::Ground))?;
    let cleared = [
        (1_650_000, 1_650_400, Kind::Cleared),
        (1_650_400, 1_650_800, Kind::Cleared),
    ];
    let peaks = [
        peak(1_666_000, 1_666_800, 1_666_800, 5_000_399),
        peak(1_666_800, 1_667_600, 1_667_200, 5_001_599),
    ];
    for method in [Method::Elimination, Method::Branchwise] {
        let below = against_five_ohms(1_650_000, 1_650_800, 500, 500, method);
        let mut scan: Scan<Span<40>> = scan_of(rt.alloc(), &network, 2, below)?;
        expect_boxes(&rt, &mut scan, cleared.as_slice());
        let above = against_five_ohms(1_666_000, 1_667_600, 200, 800, method);
        let mut scan: Scan<Span<40>> = scan_of(rt.alloc(), &network, 2, above)?;
        expect_boxes(&rt, &mut scan, peaks.as_slice());
    }
    Ok(())
}

// A scan of a node that isn't live has its finest boxes undecided, and again after a new beginning; its test says nothing of an order.
#[test]
fn a_scan_of_a_dead_node(rt: HostRuntime) -> Result<(), Fail> {
    let undecided = [
        (1_000_000, 1_500_000, Kind::Undecided),
        (1_500_000, 2_000_000, Kind::Undecided),
    ];
    for method in [Method::Elimination, Method::Both, Method::Branchwise] {
        let asked = against_five_ohms(1_000_000, 2_000_000, 500_000, 500_000, method);
        let mut scan: Scan<Span<40>> = unfed_scan(rt.alloc(), asked)?;
        expect_boxes(&rt, &mut scan, undecided.as_slice());
        scan.restart(ONE);
        expect_boxes(&rt, &mut scan, undecided.as_slice());
    }
    Ok(())
}
