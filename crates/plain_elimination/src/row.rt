// One step of the elimination, on the rectangles of one row.
ghost use Rattle.std.specs.Prelude.{◌≡◌, ◌∷◌, length, map};
ghost use Rattle.std.specs.Option.{option_map};
ghost use Rattle.complex_interval.specs.Ends.{zero_between};
ghost use Rattle.complex_interval.specs.Rect.{rectangle_of};
ghost use Rattle.plain_elimination.specs.Elimination.{sweep, later_row, later_line, take_away};
ghost use Rattle.plain_elimination.specs.Rectangles.{rectangles, is_nought};

use complex_interval::{Enclosure, Rect};

// Zero lies between the ends.
fn reaches_zero<E: Enclosure>(x: E) -> bool
    ensures { result ≡ zero_between (E.ends x) }
{
    let low = x.low();
    let high = x.high();
    low <= 0 && 0 <= high
}

// Both ends are zero.
fn is_nought<E: Enclosure>(x: E) -> bool
    ensures { result ≡ is_nought (E.ends x) }
{
    let low = x.low();
    let high = x.high();
    low == 0 && high == 0
}

/// Zero lies in both parts.
pub fn holds_zero<E: Enclosure>(x: Rect<E>) -> bool
    ensures { result ≡ (rectangles E.SCALE).holds_zero (rectangle_of E.ends x) }
{
    let re = reaches_zero(x.re);
    let im = reaches_zero(x.im);
    re && im
}

/// Zero alone in both parts.
pub fn is_zero<E: Enclosure>(x: Rect<E>) -> bool
    ensures { result ≡ (rectangles E.SCALE).is_zero (rectangle_of E.ends x) }
{
    let re = is_nought(x.re);
    let im = is_nought(x.im);
    re && im
}

/// Each entry a of the row becomes a - f a0, a0 the entry of the pivot row in the same place.
pub fn sweep<E: Enclosure>(f: Rect<E>, first: &[Rect<E>], row: &mut [Rect<E>]) -> Option<()>
    requires { length first.now ≡ length row.old }
    ensures { option_map (λ _. map (rectangle_of E.ends) row.new) result
        ≡ sweep (rectangles E.SCALE) (rectangle_of E.ends f) (map (rectangle_of E.ends) first.now) (map (rectangle_of E.ends) row.old) }
{
    for i in 0..row.len() {
        let part = f.mul(first[i])?;
        row[i] = row[i].sub(part)?;
    }
    Some(())
}

/// The further entries of a later row after the step of this pivot. `first` has the entries after the pivot in its row,
/// `entry` is the later row's in the pivot's column.
pub fn eliminate_row<E: Enclosure>(
    pivot: Rect<E>,
    first: &[Rect<E>],
    entry: Rect<E>,
    row: &mut [Rect<E>],
) -> Option<()>
    requires { length first.now ≡ length row.old }
    ensures { option_map (λ _. map (rectangle_of E.ends) row.new) result
        ≡ later_row (rectangles E.SCALE) (rectangle_of E.ends pivot) (map (rectangle_of E.ends) first.now) (rectangle_of E.ends entry ∷ map (rectangle_of E.ends) row.old) }
{
    if is_zero(entry) {
        return Some(());
    }
    let f = entry.div(pivot)?;
    sweep(f, first, row)
}

/// The same with a right side: `first_right` is the pivot row's, `right` the later row's, and the result is what becomes of it.
pub fn eliminate_line<E: Enclosure>(
    pivot: Rect<E>,
    first: &[Rect<E>],
    first_right: Rect<E>,
    entry: Rect<E>,
    row: &mut [Rect<E>],
    right: Rect<E>,
) -> Option<Rect<E>>
    requires { length first.now ≡ length row.old }
    ensures { option_map (λ b. record { left = map (rectangle_of E.ends) row.new; right = rectangle_of E.ends b }) result
        ≡ later_line (rectangles E.SCALE) (rectangle_of E.ends pivot) (map (rectangle_of E.ends) first.now) (rectangle_of E.ends first_right)
        (rectangle_of E.ends entry ∷ map (rectangle_of E.ends) row.old) (rectangle_of E.ends right) }
{
    if is_zero(entry) {
        return Some(right);
    }
    let f = entry.div(pivot)?;
    sweep(f, first, row)?;
    let part = f.mul(first_right)?;
    right.sub(part)
}

/// What is left of a right side: b less each a x, in order.
pub fn take_away<E: Enclosure>(b: Rect<E>, row: &[Rect<E>], xs: &[Rect<E>]) -> Option<Rect<E>>
    requires { length row.now ≡ length xs.now }
    ensures { option_map (rectangle_of E.ends) result
        ≡ take_away (rectangles E.SCALE) (rectangle_of E.ends b) (map (rectangle_of E.ends) row.now) (map (rectangle_of E.ends) xs.now) }
{
    let mut rest = b;
    for i in 0..row.len() {
        let part = row[i].mul(xs[i])?;
        rest = rest.sub(part)?;
    }
    Some(rest)
}
