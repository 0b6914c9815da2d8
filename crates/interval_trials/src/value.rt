// What is printed of a result.
use complex_interval::{Enclosure, Rect};
use exact_fraction::Fraction;
use std::fmt;

#[derive(Clone, Copy, Drop)]
pub enum Value {
    Absent,
    Unread,
    Flag(bool),
    Whole(i128),
    Natural(u128),
    Parts(i128, i128),
    Corners(i64, i64, i64, i64),
}

impl Value {
    pub fn of_end(end: Option<i64>) -> Value {
        end.map_or(Value::Absent, |end| Value::Whole(i128::from(end)))
    }

    pub fn of_whole(whole: Option<i128>) -> Value {
        whole.map_or(Value::Absent, Value::Whole)
    }

    pub fn of_fraction(fraction: Option<Fraction>) -> Value {
        match fraction {
            Some(fraction) => Value::Parts(fraction.num, fraction.den),
            None => Value::Absent,
        }
    }

    pub fn of_interval<E: Enclosure>(interval: Option<E>) -> Value {
        match interval {
            Some(interval) => {
                Value::Parts(i128::from(interval.low()), i128::from(interval.high()))
            }
            None => Value::Absent,
        }
    }

    pub fn of_rectangle<E: Enclosure>(rectangle: Option<Rect<E>>) -> Value {
        match rectangle {
            Some(rectangle) => Value::Corners(
                rectangle.re.low(),
                rectangle.re.high(),
                rectangle.im.low(),
                rectangle.im.high(),
            ),
            None => Value::Absent,
        }
    }
}

impl fmt::Display for Value {
    fn fmt<W: fmt::Write>(&self, f: &mut fmt::Formatter<W>) -> fmt::Result {
        match *self {
            Value::Absent => write!(f, "none"),
            Value::Unread => write!(f, "unread"),
            Value::Flag(flag) => write!(f, "{flag}"),
            Value::Whole(whole) => write!(f, "{whole}"),
            Value::Natural(natural) => write!(f, "{natural}"),
            Value::Parts(first, second) => write!(f, "{first} {second}"),
            Value::Corners(a, b, c, d) => write!(f, "{a} {b} {c} {d}"),
        }
    }
}
