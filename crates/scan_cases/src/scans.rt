// Scans of small networks at 100 MVA, most of them at 10 kV, where 1 per unit is 1 ohm.
ghost use Rattle.std.specs.Prelude.{◌≡◌, pos, IfOk};
ghost use Rattle.net_branch.specs.Whole.{IsWholeNetwork};
ghost use Rattle.study_model.specs.Curve.{curve_points, IsLawfulCurve, Spans};
ghost use Rattle.band_subdivision.specs.ScanSpec.{IsScanSpec};

use crate::compare::expect;
use band_subdivision::{Scan, ScanSpec, Tested};
use complex_interval::{Enclosure, Span};
use exact_fraction::Fraction;
use fixed_decimal::Decimal;
use net_branch::Network;
use network_cases::fixtures::{
    FOUR_HUNDREDTHS, ONE, TENTH, ZERO, bank, coil, live_node, network_of, tie, two_buses,
};
use scan_report::Kind;
use std::alloc::Global;
use std::process::Abort;
use std::test::Fail;
use study_model::{Curve, CurvePoint, Method};

/// A bus behind a coil of this resistance.
pub fn one_bus(alloc: Global, r: Fraction) -> Result<Network, Fail>
    ensures { IfOk result IsWholeNetwork }
{
    network_of(alloc, 1, &[coil(0, r)])
}

/// A band in micro-orders, its finest and its locating width, the nominal voltage in kV, the threshold in micro-ohms at each end of the
/// band, and the method.
#[derive(Clone, Copy)]
pub struct Asked {
    pub band: [u32; 2],
    pub finest: u32,
    pub locate: u32,
    pub kv: u32,
    pub ohms: [u64; 2],
    pub method: Method,
}

// A lawful curve of two points.
#[tactic(auto, using(study_model::proofs::Curves::two_lawful, study_model::proofs::Curves::points_back))]
fn curve_of(from: u32, to: u32, ohms: [u64; 2]) -> Result<Curve, Fail>
    ensures lawful { IfOk result (λ curve. IsLawfulCurve curve) }
    ensures spans { IfOk result (λ curve. Spans (curve_points curve) (pos from) (pos to)) }
{
    let [first, last] = ohms;
    if from < 100_000 || to <= from || to > 100_000_000 {
        return Err("no band".into());
    }
    if first < 1 || first >= 1_000_000_000_000 || last < 1 || last >= 1_000_000_000_000 {
        return Err("no ohms".into());
    }
    let first = CurvePoint {
        at: from,
        ohms: first,
    };
    let last = CurvePoint { at: to, ohms: last };
    Ok(Curve::of_points(&[first, last]))
}

/// What a scan is asked, in the ranges of a study.
pub fn spec_of(asked: Asked) -> Result<ScanSpec, Fail>
    ensures in_range { IfOk result IsScanSpec }
{
    let [from, to] = asked.band;
    let curve = curve_of(from, to, asked.ohms)?;
    let band = 100_000 <= from && from < to && to <= 100_000_000;
    let widths = 1 <= asked.finest && asked.finest <= asked.locate && asked.locate <= 100_000_000;
    let voltage = 1 <= asked.kv && asked.kv <= 1_000;
    if !band || !widths || !voltage {
        return Err("out of range".into());
    }
    if u64::from(to - from) > 65536 * u64::from(asked.finest) {
        return Err("too fine".into());
    }
    Ok(ScanSpec {
        from,
        to,
        finest: asked.finest,
        locate: asked.locate,
        curve,
        kv: Decimal {
            millionths: i64::from(asked.kv) * 1_000_000,
        },
        mva: Decimal {
            millionths: 100_000_000,
        },
        method: asked.method,
    })
}

/// The scan of a network at a live node.
pub fn scan_of<E: Enclosure>(
    alloc: Global,
    network: &Network,
    number: u32,
    asked: Asked,
) -> Result<Scan<E>, Fail>
    requires { IsWholeNetwork network.now }
{
    let spec = spec_of(asked)?;
    let node = live_node(alloc, network, number)?;
    Ok(Scan::new(alloc, network, node, spec)?)
}

/// The scan of a node that isn't live.
pub fn unfed_scan<E: Enclosure>(alloc: Global, asked: Asked) -> Result<Scan<E>, Fail> {
    let spec = spec_of(asked)?;
    Ok(Scan::unfed(alloc, spec)?)
}

// The scan between a network and itself, at a live node.
fn scan_between<E: Enclosure>(
    alloc: Global,
    network: &Network,
    number: u32,
    spec: &ScanSpec,
) -> Result<Scan<E>, Fail>
    requires whole { IsWholeNetwork network.now }
    requires spec { IsScanSpec spec.now }
    ensures { IfOk result (λ s. s.spec ≡ spec.now) }
{
    let node = live_node(alloc, network, number)?;
    Ok(Scan::between(alloc, network, network, node, *spec)?)
}

/// A box from one order to another, and what is said of it.
pub type Row = (u32, u32, Kind);

fn next<E: Enclosure>(scan: &mut Scan<E>) -> Option<Row> {
    match scan.next_box() {
        Some(found) => Some((found.lo, found.hi, found.kind)),
        None => None,
    }
}

// The next boxes of a scan are these.
fn expect_next<E: Enclosure>(rt: &impl Abort, scan: &mut Scan<E>, rows: &[Row]) {
    for row in rows {
        expect(rt, next(scan), Some(*row), "a box");
    }
}

/// The boxes that a scan has still to give are these.
pub fn expect_boxes<E: Enclosure>(rt: &impl Abort, scan: &mut Scan<E>, rows: &[Row]) {
    expect_next(rt, scan, rows);
    expect(rt, next(scan), None, "the end");
}

/// The boxes of a scan of a network at a live node are these.
pub fn expect_scan<E: Enclosure>(
    rt: &impl Abort,
    alloc: Global,
    network: &Network,
    number: u32,
    asked: Asked,
    rows: &[Row],
) -> Result<(), Fail>
    requires { IsWholeNetwork network.now }
{
    let mut scan: Scan<E> = scan_of(alloc, network, number, asked)?;
    expect_boxes(rt, &mut scan, rows);
    Ok(())
}

// Against half an ohm.
const COIL: Asked = Asked {
    band: [1_000_000, 10_000_000],
    finest: 1_000,
    locate: 5_000_000,
    kv: 10,
    ohms: [500_000, 500_000],
    method: Method::Elimination,
};

// |Z| = h ohms.
const BOXES_OF_A_COIL: [Row; 2] = [
    (
        1_000_000,
        5_500_000,
        Kind::Peak {
            at: 3_250_000,
            micro_ohms: 3_249_999,
        },
    ),
    (
        5_500_000,
        10_000_000,
        Kind::Peak {
            at: 7_750_000,
            micro_ohms: 7_749_999,
        },
    ),
];

// At both scales, and between the network and itself.
#[test]
fn a_coil_is_above_at_both_middles(rt: HostRuntime) -> Result<(), Fail> {
    let network = one_bus(rt.alloc(), ZERO)?;
    let rows = BOXES_OF_A_COIL;
    expect_scan::<Span<40>>(&rt, rt.alloc(), &network, 0, COIL, rows.as_slice())?;
    expect_scan::<Span<48>>(&rt, rt.alloc(), &network, 0, COIL, rows.as_slice())?;
    let spec = spec_of(COIL)?;
    let mut scan: Scan<Span<40>> = scan_between(rt.alloc(), &network, 0, &spec)?;
    expect_boxes(&rt, &mut scan, rows.as_slice());
    Ok(())
}

// At the order 5 the admittance of node 0 is zero, and so is the impedance of node 1.
const fn about_five(method: Method) -> Asked {
    Asked {
        band: [4_990_000, 5_010_000],
        finest: 20_000,
        locate: 20_000,
        kv: 10,
        ohms: [20_000_000, 20_000_000],
        method,
    }
}

#[test]
fn the_second_part_decides_where_a_pivot_holds_zero(rt: HostRuntime) -> Result<(), Fail> {
    let network = two_buses(rt.alloc())?;
    for (method, kind) in [
        (Method::Elimination, Kind::Undecided),
        (Method::Both, Kind::Cleared),
        (Method::Branchwise, Kind::Cleared),
    ] {
        let rows = [(4_990_000, 5_010_000, kind)];
        expect_scan::<Span<40>>(
            &rt,
            rt.alloc(),
            &network,
            1,
            about_five(method),
            rows.as_slice(),
        )?;
        expect_scan::<Span<48>>(
            &rt,
            rt.alloc(),
            &network,
            1,
            about_five(method),
            rows.as_slice(),
        )?;
    }
    Ok(())
}

// |Z| is h ohms. One curve is 2h ohms, and the other 12 - h, so that they meet at the order 6.
#[test]
fn a_coil_against_curves(rt: HostRuntime) -> Result<(), Fail> {
    let network = one_bus(rt.alloc(), ZERO)?;
    let rising = Asked {
        ohms: [2_000_000, 20_000_000],
        ..COIL
    };
    let falling = Asked {
        ohms: [11_000_000, 2_000_000],
        ..COIL
    };
    let within = [
        (1_000_000, 1_562_500, Kind::Cleared),
        (1_562_500, 2_125_000, Kind::Cleared),
        (2_125_000, 3_250_000, Kind::Cleared),
        (3_250_000, 5_500_000, Kind::Cleared),
        (5_500_000, 10_000_000, Kind::Cleared),
    ];
    let crossing = [(1_000_000, 5_500_000, Kind::Cleared), BOXES_OF_A_COIL[1]];
    for (asked, rows) in [(rising, within.as_slice()), (falling, crossing.as_slice())] {
        expect_scan::<Span<40>>(&rt, rt.alloc(), &network, 0, asked, rows)?;
        expect_scan::<Span<48>>(&rt, rt.alloc(), &network, 0, asked, rows)?;
    }
    Ok(())
}

// Begins anew, if there is an extra susceptance.
fn restart(rt: &impl Abort, scan: &mut Scan<Span<40>>, extra: Option<Fraction>)
    ensures { scan.new.spec ≡ scan.old.spec }
{
    if let Some(extra) = extra {
        assert!(rt; 0 <= extra.num);
        scan.restart(extra);
    }
}

/// Against 20 ohms.
pub const BESIDE_A_BANK: Asked = Asked {
    band: [3_000_000, 7_000_000],
    finest: 125_000,
    locate: 500_000,
    kv: 10,
    ohms: [20_000_000, 20_000_000],
    method: Method::Elimination,
};

/// |Z| is at most 7.01 ohms.
pub const WITHOUT_A_BANK: [Row; 1] = [(3_000_000, 7_000_000, Kind::Cleared)];

/// With 4 MVAr beside the coil.
pub const WITH_A_BANK: [Row; 6] = [
    (3_000_000, 4_000_000, Kind::Cleared),
    (
        4_000_000,
        4_500_000,
        Kind::Peak {
            at: 4_500_000,
            micro_ohms: 23_584_458,
        },
    ),
    (
        4_500_000,
        5_000_000,
        Kind::Peak {
            at: 4_750_000,
            micro_ohms: 47_829_051,
        },
    ),
    (
        5_000_000,
        5_500_000,
        Kind::Peak {
            at: 5_250_000,
            micro_ohms: 50_186_343,
        },
    ),
    (
        5_500_000,
        6_000_000,
        Kind::Peak {
            at: 5_500_000,
            micro_ohms: 26_052_232,
        },
    ),
    (6_000_000, 7_000_000, Kind::Cleared),
];

// The first two boxes with the bank are asked for twice, since in mid-walk the whole list comes again.
#[test]
fn a_resonance_with_an_extra_bank(rt: HostRuntime) -> Result<(), Fail> {
    let network = one_bus(rt.alloc(), TENTH)?;
    let mut scan = scan_of(rt.alloc(), &network, 0, BESIDE_A_BANK)?;
    expect_boxes(&rt, &mut scan, WITHOUT_A_BANK.as_slice());
    restart(&rt, &mut scan, Some(FOUR_HUNDREDTHS));
    expect_next(&rt, &mut scan, &WITH_A_BANK[..2]);
    restart(&rt, &mut scan, Some(FOUR_HUNDREDTHS));
    expect_boxes(&rt, &mut scan, WITH_A_BANK.as_slice());
    restart(&rt, &mut scan, Some(ZERO));
    expect_boxes(&rt, &mut scan, WITHOUT_A_BANK.as_slice());
    Ok(())
}

const CLEAR: Tested = Tested {
    clear: true,
    micro_ohms: None,
};

const NEITHER: Tested = Tested {
    clear: false,
    micro_ohms: None,
};

const fn above(micro_ohms: i128) -> Tested {
    Tested {
        clear: false,
        micro_ohms: Some(micro_ohms),
    }
}

// What a scan between a network and itself says of an order at a live node, with an extra susceptance.
fn tested(
    rt: &impl Abort,
    alloc: Global,
    network: &Network,
    number: u32,
    asked: Asked,
    extra: Option<Fraction>,
    order: u32,
) -> Result<Tested, Fail>
    requires { IsWholeNetwork network.now }
{
    let spec = spec_of(asked)?;
    let mut scan = scan_between(alloc, network, number, &spec)?;
    restart(rt, &mut scan, extra);
    if spec.from <= order && order <= spec.to {
        Ok(scan.test(order, order))
    } else {
        Err("not in the band".into())
    }
}

// About the order 4, with a threshold.
const fn near(threshold: u64) -> Asked {
    Asked {
        band: [3_000_000, 5_000_000],
        finest: 1_000,
        locate: 1_000,
        kv: 10,
        ohms: [threshold, threshold],
        method: Method::Elimination,
    }
}

// A bank of 1/16 leaves nothing of the coil's admittance, so no impedance exists.
#[test]
fn single_orders(rt: HostRuntime) -> Result<(), Fail> {
    let network = one_bus(rt.alloc(), ZERO)?;
    let sixteenth = Fraction { num: 1, den: 16 };
    for (label, asked, extra, order, wanted) in [
        ("a middle", COIL, None, 3_250_000, above(3_249_999)),
        (
            "at the threshold",
            near(4_000_000),
            Some(ZERO),
            4_000_000,
            CLEAR,
        ),
        (
            "above it",
            near(3_999_999),
            Some(ZERO),
            4_000_000,
            above(4_000_000),
        ),
        ("below it", near(4_000_001), Some(ZERO), 4_000_000, CLEAR),
        (
            "no impedance",
            near(4_000_000),
            Some(sixteenth),
            4_000_000,
            NEITHER,
        ),
    ] {
        for method in [Method::Elimination, Method::Both, Method::Branchwise] {
            let asked = Asked { method, ..asked };
            expect(
                &rt,
                tested(&rt, rt.alloc(), &network, 0, asked, extra, order)?,
                wanted,
                label,
            );
        }
    }
    Ok(())
}

// What each method says of an order at node 2 of a network, against so many micro-ohms and with an extra susceptance.
fn expect_tested(
    rt: &impl Abort,
    alloc: Global,
    network: &Network,
    methods: &[Method],
    asked: (&str, u64, Option<Fraction>),
    wanted: Tested,
) -> Result<(), Fail>
    requires { IsWholeNetwork network.now }
{
    let (label, ohms, extra) = asked;
    for method in methods {
        let asked = Asked {
            ohms: [ohms, ohms],
            ..about_five(*method)
        };
        let found = tested(rt, alloc, network, 2, asked, extra, 5_000_000)?;
        expect(rt, found, wanted, label);
    }
    Ok(())
}

// A coil from node 1 to a third node: at the order 5 there are 5 ohms there, since node 1 has none, and 10 with a bank of 1/50. An
// enclosure or an estimate is less than a micro-ohm off.
#[test]
fn a_peak_where_a_pivot_holds_zero(rt: HostRuntime) -> Result<(), Fail> {
    let parts = [
        coil(1, ZERO),
        tie(0, ONE, 1),
        bank(0, FOUR_HUNDREDTHS),
        tie(2, ONE, 1),
    ];
    let network = network_of(rt.alloc(), 3, parts.as_slice())?;
    let fiftieth = Fraction { num: 1, den: 50 };
    let alone = ("elimination alone", 4_000_000, None);
    expect_tested(
        &rt,
        rt.alloc(),
        &network,
        &[Method::Elimination],
        alone,
        NEITHER,
    )?;
    for (asked, wanted) in [
        (("above", 4_000_000, None), above(4_999_999)),
        (("within", 6_000_000, None), CLEAR),
        (
            ("above with a bank", 6_000_000, Some(fiftieth)),
            above(9_999_999),
        ),
        (("within with a bank", 11_000_000, Some(fiftieth)), CLEAR),
    ] {
        let methods = [Method::Both, Method::Branchwise];
        expect_tested(&rt, rt.alloc(), &network, &methods, asked, wanted)?;
    }
    Ok(())
}
