// Operations on rectangles of the complex plane.
use crate::numbers::Numbers;
use crate::value::Value;
use complex_interval::{Enclosure, Rect};

pub fn value<E: Enclosure>(name: &str, numbers: &Numbers) -> Option<Value> {
    let first: Rect<E> = numbers.rectangle(1)?;
    match name {
        "norm1_hi" => Some(Value::Natural(u128::from(first.norm1_hi()))),
        "low_square" => Some(Value::Natural(first.low_square())),
        "high_square" => Some(Value::Natural(first.high_square())),
        "complex_scale" => Some(Value::of_rectangle(first.scale(numbers.interval(5)?))),
        "complex_add" => Some(Value::of_rectangle(first.add(numbers.rectangle(5)?))),
        "complex_sub" => Some(Value::of_rectangle(first.sub(numbers.rectangle(5)?))),
        "complex_mul" => Some(Value::of_rectangle(first.mul(numbers.rectangle(5)?))),
        "complex_div" => Some(Value::of_rectangle(first.div(numbers.rectangle(5)?))),
        "repeat_div" => repeated_quotient(first, numbers.rectangle(5)?, numbers.word(9)?),
        _ => None,
    }
}

// The quotient, taken count times, each time by a divisor whose real part begins one raw unit higher; and how often there was one.
fn repeated_quotient<E: Enclosure>(first: Rect<E>, second: Rect<E>, count: i64) -> Option<Value> {
    let mut found = 0_u64;
    for step in 0..count {
        let re = E::from_ends(
            second.re.low().checked_add(step)?,
            second.re.high().checked_add(step)?,
        )?;
        let divisor = Rect { re, im: second.im };
        if first.div(divisor).is_some() {
            found = found.saturating_add(1);
        }
    }
    Some(Value::Natural(u128::from(found)))
}
