// The threshold of a scan, which in version 2 is a curve: an array of orders, and one of as many ohms.
ghost use Rattle.std.specs.Prelude.{◌≡◌, ◌<◌, ◌≤◌, ◌^◌, length, take, All, OnOk};
ghost use Rattle.toml.specs.View.{view, items_view};
ghost use Rattle.study_model.specs.Curve.{curve_of};
ghost use Rattle.study_model.specs.declared.curve.TheConstants.{MAX_CURVE_POINTS};
ghost use Rattle.study_reader.specs.Checks.{Reads, ReadsBy};
ghost use Rattle.study_reader.specs.Curves.{items_fault, millionths_in, length_fault, counted_fault, decimals_fault, decimals_value, listed, is_rising, reach_fault, points_of, curve_fault, curve_value, has_curves, limit_fault, limit};

use crate::decimal_array::Decimals;
use crate::decimals::{decimal, decimal_in};
use crate::keys::{find, key_of};
use fixed_decimal::Decimal;
use study_model::{Curve, CurvePoint, Key, MAX_CURVE_POINTS, Place, Range, StudyFault};
use toml::Value;

/// The values of an array, each a decimal in its range.
#[tactic(auto, using(crate::proofs::CurveSteps::read_step))]
fn millionths_in(
    values: &[Value],
    place: Place,
    range: Range,
) -> Result<[u64; MAX_CURVE_POINTS], StudyFault>
    requires { length values.now ≤ MAX_CURVE_POINTS }
    ensures read { ReadsBy (λ read. take (length values.now) read) result (items_fault place range (items_view values.now)) (millionths_in (items_view values.now)) }
{
    let mut read = [0; MAX_CURVE_POINTS];
    let mut number = 0;
    for value in values {
        let decimal = decimal_in(value, place, range)?;
        read[number] = decimal.millionths.unsigned_abs();
        number += 1;
    }
    Ok(read)
}

/// A length from `least` to `most`.
pub(crate) fn has_length(
    len: usize,
    place: Place,
    least: usize,
    most: usize,
) -> Result<(), StudyFault>
    ensures read { Reads result (length_fault place least most len) tt }
    ensures few { OnOk result (len ≤ most) }
{
    if len < least || len > most {
        return Err(StudyFault::OutOfRange(place));
    }
    Ok(())
}

/// The values of an array of a length from `least` to `most`, each a decimal in its range.
#[tactic(auto, using(crate::proofs::Counts::count_of_items))]
fn counted_decimals(
    values: &[Value],
    place: Place,
    least: usize,
    most: usize,
    range: Range,
) -> Result<Decimals, StudyFault>
    requires { most ≤ MAX_CURVE_POINTS }
    ensures read { ReadsBy listed result (counted_fault place least most range (items_view values.now)) (millionths_in (items_view values.now)) }
{
    let len = values.len();
    has_length(len, place, least, most)?;
    let millionths = millionths_in(values, place, range)?;
    Ok(Decimals { len, millionths })
}

/// The decimals at a key, which have to stand there.
#[tactic(auto, unfolding(crate::specs::Curves::decimals_fault, crate::specs::Curves::decimals_value))]
fn decimals_at(
    entry: &Value,
    place: Place,
    key: Key,
    least: usize,
    most: usize,
    range: Range,
) -> Result<Decimals, StudyFault>
    requires { most ≤ MAX_CURVE_POINTS }
    ensures read { ReadsBy listed result (decimals_fault place key least most range (view entry.now)) (decimals_value key (view entry.now)) }
{
    match find(entry, key) {
        None => Err(StudyFault::MissingKey(key_of(place, key))),
        Some(Value::Array(values)) => {
            counted_decimals(values.as_slice(), key_of(place, key), least, most, range)
        }
        Some(_) => Err(StudyFault::WrongKind(key_of(place, key))),
    }
}

/// Whether each number is above the one before it, and the first above 0.
fn is_rising(numbers: &[u64]) -> bool
    ensures { result ≡ is_rising 0 numbers.now }
{
    let mut before = 0;
    for number in numbers {
        if *number <= before {
            return false;
        }
        before = *number;
    }
    true
}

/// Orders rise, from at most one to at least another.
#[tactic(auto, unfolding(crate::specs::Curves::reach_fault))]
fn reaching(place: Place, from: Decimal, to: Decimal, orders: &[u64]) -> Result<(), StudyFault>
    requires { 1 ≤ length orders.now }
    ensures read { Reads result (reach_fault place from to orders.now) tt }
{
    let first = orders[0];
    let last = orders[orders.len() - 1];
    let within = first <= from.millionths.unsigned_abs() && to.millionths.unsigned_abs() <= last;
    if is_rising(orders) && within {
        Ok(())
    } else {
        Err(StudyFault::OutOfRange(key_of(place, Key::CurveAt)))
    }
}

/// The curve of orders and of as many ohms.
#[tactic(auto, using(crate::proofs::CurveSteps::points_step))]
fn joined(orders: &[u64], ohms: &[u64]) -> Curve
    requires few { length orders.now ≤ MAX_CURVE_POINTS }
    requires same { length ohms.now ≡ length orders.now }
    requires fit { All (λ at. at < 2 ^ 32) orders.now }
    ensures { result ≡ curve_of (points_of orders.now ohms.now) }
{
    let mut points = [CurvePoint::NONE; MAX_CURVE_POINTS];
    for i in 0..orders.len() {
        points[i] = CurvePoint {
            at: orders[i] as u32,
            ohms: ohms[i],
        };
    }
    Curve::of_points(&points[..orders.len()])
}

/// The curve of a scan, which reaches over its band.
#[tactic(auto, unfolding(crate::specs::Curves::curve_fault, crate::specs::Curves::curve_value), using(crate::proofs::SoundCurves::read_steps))]
fn curve_of(entry: &Value, place: Place, from: Decimal, to: Decimal) -> Result<Curve, StudyFault>
    ensures read { Reads result (curve_fault place from to (view entry.now)) (curve_value (view entry.now)) }
{
    let orders = decimals_at(entry, place, Key::CurveAt, 2, MAX_CURVE_POINTS, Range::BAND)?;
    let orders = orders.as_slice();
    reaching(place, from, to, orders)?;
    let len = orders.len();
    let ohms = decimals_at(entry, place, Key::CurveOhms, len, len, Range::ABOVE_ZERO)?;
    Ok(joined(orders, ohms.as_slice()))
}

/// The threshold of a scan: ohms with their flat curve, or a curve alone.
#[derive(Clone, Copy)]
pub(crate) struct Limit {
    pub(crate) threshold: Option<Decimal>,
    pub(crate) curve: Curve,
}

/// Whether the thresholds of a study of this version are curves.
pub(crate) fn has_curves(version: u32) -> bool
    ensures { result ≡ has_curves version }
{
    version == 2
}

/// The threshold of a scan of this band, in a study of this version.
#[tactic(auto, unfolding(crate::specs::Curves::limit_fault, crate::specs::Curves::limit))]
pub(crate) fn limit_of(
    entry: &Value,
    place: Place,
    version: u32,
    from: Decimal,
    to: Decimal,
) -> Result<Limit, StudyFault>
    ensures read { Reads result (limit_fault version place from to (view entry.now)) (limit version (view entry.now)) }
{
    if has_curves(version) {
        let curve = curve_of(entry, place, from, to)?;
        return Ok(Limit {
            threshold: None,
            curve,
        });
    }
    let ohms = decimal(entry, place, Key::Threshold, Range::ABOVE_ZERO)?;
    Ok(Limit {
        threshold: Some(ohms),
        curve: Curve::flat(ohms.millionths.unsigned_abs()),
    })
}
