// Operations on intervals, at the scale that leads the line.
use crate::numbers::Numbers;
use crate::rectangles;
use crate::value::Value;
use complex_interval::Enclosure;

pub fn value<E: Enclosure>(name: &str, numbers: &Numbers) -> Option<Value> {
    match name {
        "from_ends" => Some(Value::of_interval(numbers.interval::<E>(1))),
        "from_fraction" => Some(Value::of_interval(E::from_fraction(numbers.fraction(1)?))),
        "from_range" => from_range::<E>(numbers),
        "add" | "sub" | "mul" | "div" => binary::<E>(name, numbers),
        "square" | "not_below_zero" | "not_above_zero" | "mig" | "mag" | "width" => {
            unary::<E>(name, numbers.interval(1)?)
        }
        _ => rectangles::value::<E>(name, numbers),
    }
}

fn from_range<E: Enclosure>(numbers: &Numbers) -> Option<Value> {
    let from = numbers.fraction(1)?;
    let to = numbers.fraction(3)?;
    if from.at_most(to) {
        Some(Value::of_interval(E::from_range(from, to)))
    } else {
        None
    }
}

fn binary<E: Enclosure>(name: &str, numbers: &Numbers) -> Option<Value> {
    let first: E = numbers.interval(1)?;
    let second: E = numbers.interval(3)?;
    let result = match name {
        "add" => first.add(second),
        "sub" => first.sub(second),
        "mul" => first.mul(second),
        _ => first.div(second),
    };
    Some(Value::of_interval(result))
}

fn unary<E: Enclosure>(name: &str, interval: E) -> Option<Value> {
    Some(match name {
        "square" => Value::of_interval(interval.square()),
        "not_below_zero" => Value::of_interval(interval.not_below_zero()),
        "not_above_zero" => Value::of_interval(interval.not_above_zero()),
        "mig" => Value::Natural(u128::from(interval.mig())),
        "mag" => Value::Natural(u128::from(interval.mag())),
        _ => Value::Natural(u128::from(interval.width())),
    })
}
