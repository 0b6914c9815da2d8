// The least threshold of a box. A line has its least at an end, so what is compared are the values at the ends and at the points between.
ghost use Rattle.std.specs.Prelude.{◌≡◌, ◌*◌, ◌≤◌, ◌<◌, ◌∷◌, pos};
ghost use Rattle.std.specs.List.{AllByRecursion};
ghost use Rattle.exact_algebra.specs.Ratio.{whole};
ghost use Rattle.exact_fraction.specs.Fraction.{ratio_of};
ghost use Rattle.study_model.specs.Curve.{curve_points, IsLawfulPoint, IsLawfulCurve};
ghost use Rattle.threshold_curve.specs.Curve.{between, lesser, least_from, least_over, BeginsBy, IsLevel, IsRising, AreRising};

use exact_fraction::Fraction;
use study_model::{Curve, CurvePoint};

// A point's ohms, times the distance to the other point: its part of the value.
#[tactic(auto, using(crate::proofs::Lines::part_small))]
fn part(ohms: u64, distance: u32) -> i128
    requires { ohms ≤ 999999999999 }
    ensures value { result ≡ pos (ohms * distance) }
    ensures bound { ohms * distance ≤ 999999999999 * distance }
{
    ohms as i128 * distance as i128
}

// The micro-ohms at x millionths of an order, on the line between two points.
fn between(p: CurvePoint, q: CurvePoint, x: u32) -> Fraction
    requires apart { p.at < q.at }
    requires from { p.at ≤ x }
    requires to { x ≤ q.at }
    requires first { IsLawfulPoint p }
    requires second { IsLawfulPoint q }
    ensures value { ratio_of result ≡ between p q x 1 }
    ensures level { IsLevel result }
{
    Fraction {
        num: part(p.ohms, q.at - x) + part(q.ohms, x - p.at),
        den: (q.at - p.at) as i128,
    }
}

// The lesser of the two.
fn lesser(x: Fraction, y: Fraction) -> Fraction
    requires first { IsLevel x }
    requires second { IsLevel y }
    ensures value { ratio_of result ≡ lesser (ratio_of x) (ratio_of y) }
    ensures level { IsLevel result }
{
    if x.at_most(y) { x } else { y }
}

// The ohms of a point, as they stay after the last one.
#[tactic(auto, unfolding(exact_algebra::specs::Ratio::whole))]
fn at_point(p: CurvePoint) -> Fraction
    requires { IsLawfulPoint p }
    ensures value { ratio_of result ≡ whole (pos p.ohms) }
    ensures level { IsLevel result }
{
    Fraction {
        num: p.ohms as i128,
        den: 1,
    }
}

// The least of the curve that begins at p and goes on at these.
fn least_from(p: CurvePoint, rest: &[CurvePoint], lo: u32, hi: u32) -> Fraction
    requires rising { IsRising p rest.now }
    requires first { IsLawfulPoint p }
    requires lawful { AllByRecursion IsLawfulPoint rest.now }
    requires from { p.at ≤ lo }
    requires ordered { lo ≤ hi }
    ensures value { ratio_of result ≡ least_from p rest.now lo hi }
    ensures level { IsLevel result }
{
    match rest {
        [] => at_point(p),
        [q, rest @ ..] => {
            if q.at <= lo {
                return least_from(*q, rest, lo, hi);
            }
            if hi < q.at {
                return lesser(between(p, *q, lo), between(p, *q, hi));
            }
            lesser(between(p, *q, lo), least_from(*q, rest, q.at, hi))
        }
    }
}

// The same of a curve.
#[tactic(auto, unfolding(crate::specs::Curve::least_over))]
fn least_of(points: &[CurvePoint], lo: u32, hi: u32) -> Fraction
    requires rising { AreRising points.now }
    requires lawful { AllByRecursion IsLawfulPoint points.now }
    requires from { BeginsBy points.now lo }
    requires ordered { lo ≤ hi }
    ensures value { ratio_of result ≡ least_over points.now lo hi }
    ensures level { IsLevel result }
{
    match points {
        [] => unreachable!(),
        [first, rest @ ..] => least_from(*first, rest, lo, hi),
    }
}

/// The least micro-ohms of a curve from `lo` to `hi` millionths of an order, its ends included, as a fraction that is not reduced.
pub fn least_over(curve: &Curve, lo: u32, hi: u32) -> Fraction
    requires lawful { IsLawfulCurve curve.now }
    requires from { BeginsBy (curve_points curve.now) lo }
    requires ordered { lo ≤ hi }
    ensures value { ratio_of result ≡ least_over (curve_points curve.now) lo hi }
    ensures level { IsLevel result }
{
    least_of(curve.as_points(), lo, hi)
}
