// Branches whose admittances were worked by hand.
use crate::compare::expect;
use crate::fixtures::{ONE, TENTH, ZERO};
use admittance_box::{
    SeriesParameters, SeriesValues, order_range, resistance, series_admittance, shunt_admittance,
};
use complex_interval::{Enclosure, Rect, Span};
use exact_fraction::Fraction;
use std::process::Abort;

const UNIT_40: i64 = 1_099_511_627_776;

const TEN: i64 = 10 * UNIT_40;

const ELEVEN: i64 = 11 * UNIT_40;

const UNIT_48: i64 = 281_474_976_710_656;

const HALF: Fraction = Fraction { num: 1, den: 2 };

const THIRD: Fraction = Fraction { num: 1, den: 3 };

const QUARTER: Fraction = Fraction { num: 1, den: 4 };

const TWO_THIRDS: Fraction = Fraction { num: 2, den: 3 };

const TWENTY_FIVE: Fraction = Fraction { num: 25, den: 1 };

// Out of range at scale 40.
const TEN_MILLION: Fraction = Fraction {
    num: 10_000_000,
    den: 1,
};

const FIVE_QUARTERS: i64 = 5 * UNIT_48 / 4;

const SHORT: SeriesValues = SeriesValues {
    r: ZERO,
    k: ZERO,
    m: ZERO,
    x: ZERO,
    xc: ZERO,
};

const COIL: SeriesValues = SeriesValues {
    r: ZERO,
    k: ZERO,
    m: ZERO,
    x: ONE,
    xc: ZERO,
};

// Tuned to the order 5.
const FILTER: SeriesValues = SeriesValues {
    r: TENTH,
    k: ZERO,
    m: ZERO,
    x: ONE,
    xc: TWENTY_FIVE,
};

// At the order 11 the resistance is 1389/1710.
const SKIN: SeriesValues = SeriesValues {
    r: Fraction { num: 3, den: 5 },
    k: HALF,
    m: Fraction { num: 50, den: 1 },
    x: ZERO,
    xc: ZERO,
};

// At the order 11, m + h^2 is zero.
const SKIN_WITHOUT_VALUE: SeriesValues = SeriesValues {
    r: Fraction { num: 3, den: 5 },
    k: HALF,
    m: Fraction { num: -121, den: 1 },
    x: ZERO,
    xc: ZERO,
};

// The same m, which doesn't count where k is zero.
const NO_SKIN: SeriesValues = SeriesValues {
    r: Fraction { num: 3, den: 5 },
    k: ZERO,
    m: Fraction { num: -121, den: 1 },
    x: ZERO,
    xc: ZERO,
};

// The raw ends of an interval, and its width.
type Ends = (i64, i64, u64);

fn ends<E: Enclosure>(x: E) -> Ends {
    (x.low(), x.high(), x.width())
}

// What an interval has to be.
#[derive(Clone, Copy)]
enum Wanted {
    Anything,
    // of these ends
    Exactly(i64, i64),
    // about the numbers from the first to the second, and narrower than so many raw units
    About(i64, i64, u64),
    // the low end at least the first and below the second, the high end at least the third and below the fourth
    EndsIn(i64, i64, i64, i64),
}

fn is_wanted(found: Ends, wanted: Wanted) -> bool {
    let (low, high, width) = found;
    match wanted {
        Wanted::Anything => true,
        Wanted::Exactly(a, b) => low == a && high == b,
        Wanted::About(a, b, below) => low <= a && b <= high && width < below,
        Wanted::EndsIn(a, b, c, d) => a <= low && low < b && c <= high && high < d,
    }
}

// The parameters from low to high, where each value is at most the other.
fn between<E: Enclosure>(low: SeriesValues, high: SeriesValues) -> Option<SeriesParameters<E>> {
    let r = low.r.at_most(high.r);
    let k = low.k.at_most(high.k);
    let m = low.m.at_most(high.m);
    let x = low.x.at_most(high.x);
    let xc = low.xc.at_most(high.xc);
    if r && k && m && x && xc {
        SeriesParameters::from_fractions(low, high)
    } else {
        None
    }
}

// The admittance of a branch with these values.
fn admittance<E: Enclosure>(values: SeriesValues, order: E) -> Option<Rect<E>> {
    series_admittance(&between(values, values)?, order)
}

// The orders from lo to hi, in micro-orders.
fn orders<E: Enclosure>(rt: &impl Abort, lo: u32, hi: u32) -> E {
    assert!(rt; 100_000 <= lo && lo <= hi && hi <= 100_000_000);
    order_range(lo, hi)
}

// The real and the imaginary part of an admittance over the orders from lo to hi.
fn parts<E: Enclosure>(
    rt: &impl Abort,
    values: SeriesValues,
    lo: u32,
    hi: u32,
) -> Option<(Ends, Ends)> {
    let y: Rect<E> = admittance(values, orders(rt, lo, hi))?;
    Some((ends(y.re), ends(y.im)))
}

// One row of a table: a branch, the orders, and the parts of its admittance, if it has one.
#[derive(Clone, Copy)]
struct Row {
    label: &'static str,
    values: SeriesValues,
    lo: u32,
    hi: u32,
    wanted: Option<(Wanted, Wanted)>,
}

fn assert_parts(rt: &impl Abort, found: Option<(Ends, Ends)>, row: Row) {
    let is_right = match (found, row.wanted) {
        (Some((re, im)), Some((wanted_re, wanted_im))) => {
            is_wanted(re, wanted_re) && is_wanted(im, wanted_im)
        }
        (None, None) => true,
        _ => false,
    };
    let label = row.label;
    assert!(rt; is_right, "{label}: {found:?}");
}

#[test]
fn admittances_at_scale_40(rt: HostRuntime) {
    for row in [
        Row {
            label: "an inductance",
            values: COIL,
            lo: 3_250_000,
            hi: 3_250_000,
            wanted: Some((
                Wanted::Exactly(0, 0),
                Wanted::Exactly(-338_311_270_085, -338_311_270_084),
            )),
        },
        Row {
            label: "a filter about its tuned order",
            values: FILTER,
            lo: 4_800_000,
            hi: 5_200_000,
            wanted: Some((
                Wanted::EndsIn(615_726_511_555, 626_721_627_833, TEN, ELEVEN),
                Wanted::Anything,
            )),
        },
        Row {
            label: "skin effect without a value",
            values: SKIN_WITHOUT_VALUE,
            lo: 11_000_000,
            hi: 11_000_000,
            wanted: None,
        },
        Row {
            label: "no skin effect",
            values: NO_SKIN,
            lo: 11_000_000,
            hi: 11_000_000,
            wanted: Some((
                Wanted::About(1_832_519_379_626, 1_832_519_379_627, u64::MAX),
                Wanted::Anything,
            )),
        },
    ] {
        assert_parts(&rt, parts::<Span<40>>(&rt, row.values, row.lo, row.hi), row);
    }
}

#[test]
fn admittances_at_scale_48(rt: HostRuntime) {
    for row in [
        Row {
            label: "skin effect",
            values: SKIN,
            lo: 11_000_000,
            hi: 11_000_000,
            wanted: Some((
                Wanted::About(346_524_269_384_608, 346_524_269_384_609, 16),
                Wanted::Anything,
            )),
        },
        Row {
            label: "a short",
            values: SHORT,
            lo: 5_000_000,
            hi: 5_000_001,
            wanted: None,
        },
    ] {
        assert_parts(&rt, parts::<Span<48>>(&rt, row.values, row.lo, row.hi), row);
    }
}

fn assert_ends(rt: &impl Abort, found: Option<Ends>, wanted: Wanted, label: &str) {
    let is_right = match found {
        Some(found) => is_wanted(found, wanted),
        None => false,
    };
    assert!(rt; is_right, "{label}: {found:?}");
}

// The resistance of a branch at an order.
fn resistance_of<E: Enclosure>(values: SeriesValues, order: E) -> Option<Ends> {
    let p = between(values, values)?;
    Some(ends(resistance(p.r, p.k, p.m, p.plain, order)?))
}

// The susceptance of a shunt at an order, where it has no conductance.
fn susceptance_of<E: Enclosure>(b: Fraction, order: E) -> Option<Ends> {
    let y = shunt_admittance(E::from_fraction(b)?, order)?;
    if ends(y.re) == (0, 0, 0) {
        Some(ends(y.im))
    } else {
        None
    }
}

#[test]
fn orders_resistances_and_shunts(rt: HostRuntime) {
    let order = orders::<Span<40>>(&rt, 3_250_000, 3_250_000);
    let exactly = Wanted::Exactly(3_573_412_790_272, 3_573_412_790_272);
    assert_ends(&rt, Some(ends(order)), exactly, "the order 3.25");
    let five = orders::<Span<48>>(&rt, 5_000_000, 5_000_000);
    let capacitor = susceptance_of(QUARTER, five);
    let wanted = Wanted::Exactly(FIVE_QUARTERS, FIVE_QUARTERS);
    assert_ends(&rt, capacitor, wanted, "a capacitor to ground");
    let eleven = orders::<Span<48>>(&rt, 11_000_000, 11_000_000);
    let about = Wanted::About(228_636_691_608_831, 228_636_691_608_832, 8);
    assert_ends(&rt, resistance_of(SKIN, eleven), about, "skin effect");
}

// Whether the resistance of a range of parameters doesn't depend on the order, and the ends of it at order 1.
fn range_of(low: SeriesValues, high: SeriesValues) -> Option<(bool, i64, i64)> {
    let p: SeriesParameters<Span<40>> = between(low, high)?;
    Some((p.plain, p.r.low(), p.r.high()))
}

// From a third to two thirds; with a skin effect; with a capacitor out of range.
#[test]
fn values_between_two(rt: HostRuntime) {
    let low = SeriesValues { r: THIRD, ..COIL };
    for (label, k, xc, wanted) in [
        (
            "plain",
            ZERO,
            ZERO,
            Some((true, 366_503_875_925, 733_007_751_851)),
        ),
        (
            "with k",
            HALF,
            ZERO,
            Some((false, 366_503_875_925, 733_007_751_851)),
        ),
        ("out of range", HALF, TEN_MILLION, None),
    ] {
        let high = SeriesValues {
            r: TWO_THIRDS,
            k,
            xc,
            ..COIL
        };
        expect(&rt, range_of(low, high), wanted, label);
    }
}
