// The estimate of the impedance.
ghost use Rattle.std.specs.Prelude.{◌≡◌, ◌<◌, length, map};
ghost use Rattle.std.specs.List.{All};
ghost use Rattle.std.specs.Option.{option_map};
ghost use Rattle.complex_interval.specs.Rect.{rectangle_of};
ghost use Rattle.plain_elimination.specs.Matrix.{nought_rectangle};
ghost use Rattle.branchwise_test.specs.Enclosed.{moved_first, moved_last, moved, with_term, correction};
ghost use Rattle.drop_bench.specs.Columns.{column_of, columns};
ghost use Rattle.drop_bench.specs.Drops.{drop_ends};

use crate::column::entry_in;
use crate::drops::DropIntervals;
use complex_interval::{Enclosure, Rect};
use middle_inverse::nought_point;

// (K·X)·D, or K·(X·D) where that has no value.
fn moved<E: Enclosure>(k: Rect<E>, x: Rect<E>, d: Rect<E>) -> Option<Rect<E>>
    ensures { option_map (rectangle_of E.ends) result ≡ moved E.SCALE (rectangle_of E.ends k) (rectangle_of E.ends x) (rectangle_of E.ends d) }
{
    match in_front(k, x, d) {
        Some(product) => Some(product),
        None => behind(k, x, d),
    }
}

// K·(X·D).
fn behind<E: Enclosure>(k: Rect<E>, x: Rect<E>, d: Rect<E>) -> Option<Rect<E>>
    ensures { option_map (rectangle_of E.ends) result ≡ moved_last E.SCALE (rectangle_of E.ends k) (rectangle_of E.ends x) (rectangle_of E.ends d) }
{
    k.mul(x.mul(d)?)
}

// (K·X)·D.
fn in_front<E: Enclosure>(k: Rect<E>, x: Rect<E>, d: Rect<E>) -> Option<Rect<E>>
    ensures { option_map (rectangle_of E.ends) result
        ≡ moved_first E.SCALE (rectangle_of E.ends k) (rectangle_of E.ends x) (rectangle_of E.ends d) }
{
    k.mul(x)?.mul(d)
}

// The sum, and on top of it what the drop of a column adds to the correction.
fn add_term<E: Enclosure>(
    sum: Rect<E>,
    drop: &DropIntervals<E>,
    voltages: &[Vec<Rect<E>>],
    column: usize,
    x: Rect<E>,
    driven: u32,
) -> Option<Rect<E>>
    requires { All (λ r. column < length r.items) voltages.now }
    ensures { option_map (rectangle_of E.ends) result
        ≡ with_term E.SCALE driven (rectangle_of E.ends sum) (drop_ends E.ends drop.now) (column_of column (map (λ r. map (rectangle_of E.ends) r.items) voltages.now)) (rectangle_of E.ends x) }
{
    let voltage = entry_in(voltages, column, driven)?;
    let term = moved(voltage, x, drop.rest)?;
    sum.add(term)
}

/// The correction of the driven node's own entry, drop by drop.
pub fn correction<E: Enclosure>(
    drops: &[DropIntervals<E>],
    voltages: &[Vec<Rect<E>>],
    xs: &[Rect<E>],
    driven: u32,
) -> Option<Rect<E>>
    requires voltages_wide { All (λ r. length r.items ≡ length drops.now) voltages.now }
    requires xs_in { length xs.now ≡ length drops.now }
    ensures { option_map (rectangle_of E.ends) result
        ≡ correction E.SCALE driven nought_rectangle (map (drop_ends E.ends) drops.now) (columns (length drops.now) (map (λ r. map (rectangle_of E.ends) r.items) voltages.now)) (map (rectangle_of E.ends) xs.now) }
{
    let mut sum = nought_point();
    for i in 0..drops.len() {
        sum = add_term(sum, &drops[i], voltages, i, xs[i], driven)?;
    }
    Some(sum)
}
