// Operations on fractions: the scale that leads the line is 0.
use crate::numbers::Numbers;
use crate::value::Value;
use exact_fraction::{Fraction, root_ceil, root_floor};

pub fn value(name: &str, numbers: &Numbers) -> Option<Value> {
    match name {
        "new" => Some(Value::of_fraction(Fraction::new(numbers.at(1), numbers.at(2)))),
        "product" => product(numbers),
        "root_floor" => root(numbers, false),
        "root_ceil" => root(numbers, true),
        "at_most" => Some(Value::Flag(numbers.fraction(1)?.at_most(numbers.fraction(3)?))),
        "floor_scaled" => scaled(numbers, false),
        "ceil_scaled" => scaled(numbers, true),
        "floor_times" => multiple(numbers, false),
        "ceil_times" => multiple(numbers, true),
        _ => None,
    }
}

// Three factors over two.
fn product(numbers: &Numbers) -> Option<Value> {
    let top = [numbers.word(1)?, numbers.word(2)?, numbers.word(3)?];
    let bottom = [numbers.word(4)?, numbers.word(5)?];
    Some(Value::of_fraction(Fraction::product(&top, &bottom)))
}

fn root(numbers: &Numbers, up: bool) -> Option<Value> {
    let square = u128::try_from(numbers.at(1)).ok()?;
    if square >= 1 << 127 {
        return None;
    }
    let root = if up {
        root_ceil(square)
    } else {
        root_floor(square)
    };
    Some(Value::Natural(u128::from(root)))
}

fn scaled(numbers: &Numbers, up: bool) -> Option<Value> {
    let x = numbers.fraction(1)?;
    let scale = numbers.small(3)?;
    if scale > 48 {
        None
    } else if up {
        Some(Value::of_end(x.ceil_scaled(scale)))
    } else {
        Some(Value::of_end(x.floor_scaled(scale)))
    }
}

fn multiple(numbers: &Numbers, up: bool) -> Option<Value> {
    let x = numbers.fraction(1)?;
    let factor = u64::try_from(numbers.at(3)).ok()?;
    let scale = numbers.small(4)?;
    if scale > 48 || x.num < 0 {
        None
    } else if up {
        Some(Value::of_whole(x.ceil_times(factor, scale)))
    } else {
        Some(Value::of_whole(x.floor_times(factor, scale)))
    }
}
