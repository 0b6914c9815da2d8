// Totals and bounds at their edges.
ghost use Rattle.std.specs.Prelude.{◌≤◌, All, IsTrue};

use distortion_bounds::{Squares, VOLTAGE_RHO, bounds, current_rho, total};
use exact_fraction::Fraction;
use fixed_decimal::Decimal;
use std::test::Fail;

// 2^125.
const TOP: u128 = 1 << 125;

const fn squares(lo: u128, hi: u128) -> Squares {
    Squares { lo, hi }
}

// Whether each low square is at most the high one.
fn are_ordered(list: &[Squares]) -> bool
    ensures { IsTrue result → All (λ q. q.lo ≤ q.hi) list.now }
{
    list.iter().all(|q| q.lo <= q.hi)
}

fn total_of(list: &[Squares]) -> Result<Option<(u128, u128)>, Fail> {
    if !are_ordered(list) {
        return Err("out of order".into());
    }
    match total(list) {
        Some(squares) => Ok(Some((squares.lo, squares.hi))),
        None => Ok(None),
    }
}

// A total is below 2^125.
#[test]
fn totals(rt: HostRuntime) -> Result<(), Fail> {
    let one = [squares(3, 4)];
    let three = [squares(3, 4), squares(0, 0), squares(5, TOP - 5)];
    let past = [squares(3, 4), squares(0, 0), squares(5, TOP - 4)];
    let huge = [squares(0, u128::MAX), squares(0, u128::MAX)];
    let cases: [(&[Squares], Option<(u128, u128)>); 5] = [
        (&[], Some((0, 0))),
        (&one, Some((3, 4))),
        (&three, Some((8, TOP - 1))),
        (&past, None),
        (&huge, None),
    ];
    for (list, wanted) in cases {
        let found = total_of(list)?;
        assert!(rt; found == wanted);
    }
    Ok(())
}

// Of a square, or of three times it, with this rho at a scale.
fn bounds_of(
    squares: Squares,
    triple: bool,
    rho: Fraction,
    scale: u32,
) -> Result<Option<(u64, u64)>, Fail> {
    if squares.lo > TOP || squares.hi > TOP || rho.num < 0 || scale > 48 {
        return Err("out of range".into());
    }
    let found = if triple {
        bounds(squares, 3, rho, scale)
    } else {
        bounds(squares, 1, rho, scale)
    };
    match found {
        Some(bounds) => Ok(Some((bounds.lo, bounds.hi))),
        None => Ok(None),
    }
}

const ONE: Fraction = Fraction { num: 1, den: 1 };

// 2^64 - 1, 2^64, half of 2^65 - 1, and 2^100.
const GREATEST: Fraction = Fraction {
    num: 18_446_744_073_709_551_615,
    den: 1,
};

const BEYOND: Fraction = Fraction {
    num: 18_446_744_073_709_551_616,
    den: 1,
};

const BETWEEN: Fraction = Fraction {
    num: 36_893_488_147_419_103_231,
    den: 2,
};

const HUGE: Fraction = Fraction {
    num: 1_267_650_600_228_229_401_496_703_205_376,
    den: 1,
};

// At scale 40 the square 2^80 is 1. The root of 3 is 1.7320508. A bound is below 2^64.
#[test]
fn bounds_at_edges(rt: HostRuntime) -> Result<(), Fail> {
    let one = squares(1 << 80, 1 << 80);
    let unit = squares(1, 1);
    let cases = [
        (squares(0, 0), true, VOLTAGE_RHO, 40, Some((0, 0))),
        (one, false, ONE, 40, Some((1, 1))),
        (one, true, VOLTAGE_RHO, 40, Some((1_732_050, 1_732_051))),
        (squares(2, 3), false, ONE, 0, Some((1, 2))),
        (unit, false, GREATEST, 0, Some((u64::MAX, u64::MAX))),
        (unit, false, BEYOND, 0, None),
        (unit, false, BETWEEN, 0, None),
        (squares(0, TOP), true, HUGE, 48, None),
    ];
    for (squares, triple, rho, scale, wanted) in cases {
        let found = bounds_of(squares, triple, rho, scale)?;
        assert!(rt; found == wanted);
    }
    Ok(())
}

const KV: Decimal = Decimal {
    millionths: 10_000_000,
};

const MVA: Decimal = Decimal {
    millionths: 100_000_000,
};

const AMPERES: Decimal = Decimal {
    millionths: 2_500_000_000,
};

const FOUR_MILLION: Fraction = Fraction {
    num: 4_000_000,
    den: 1,
};

// 1 per unit of 100 MVA at 10 kV over 2500 A is 400 percent.
#[test]
fn rho_of_currents(rt: HostRuntime) {
    let rho = current_rho(KV, MVA, AMPERES);
    assert!(rt; rho.at_most(FOUR_MILLION) && FOUR_MILLION.at_most(rho));
}
