// Sums of products, in ascending order.
ghost use Rattle.std.specs.Prelude.{◌≡◌, ◌≤◌, ◌*◌, length, map, replicate};
ghost use Rattle.std.specs.Option.{option_map};
ghost use Rattle.complex_interval.specs.Rect.{rectangle_of};
ghost use Rattle.plain_elimination.specs.Matrix.{nought_rectangle};
ghost use Rattle.middle_inverse.specs.Leads.{LeadsOver};
ghost use Rattle.certified_inverse.specs.Ways.{AreWays};
ghost use Rattle.certified_inverse.specs.Certificate.{each_two, add_times, combination, sum_products};

use complex_interval::{Enclosure, Rect};
use plain_elimination::{Matrix, clear_cells, is_zero};

/// sum + f a.
fn add_times<E: Enclosure>(f: Rect<E>, sum: Rect<E>, a: Rect<E>) -> Option<Rect<E>>
    ensures { option_map (rectangle_of E.ends) result ≡ add_times E.SCALE (rectangle_of E.ends f) (rectangle_of E.ends sum) (rectangle_of E.ends a) }
{
    if is_zero(f) {
        return Some(sum);
    }
    if is_zero(a) {
        return Some(sum);
    }
    let part = f.mul(a)?;
    sum.add(part)
}

/// The sum, and on top of it the product of each two entries.
pub fn sum_products<E: Enclosure>(first: Rect<E>, cs: &[Rect<E>], xs: &[Rect<E>]) -> Option<Rect<E>>
    requires { length cs.now ≡ length xs.now }
    ensures { option_map (rectangle_of E.ends) result
        ≡ sum_products E.SCALE (rectangle_of E.ends first) (map (rectangle_of E.ends) cs.now) (map (rectangle_of E.ends) xs.now) }
{
    let mut sum = first;
    for i in 0..cs.len() {
        sum = add_times(cs[i], sum, xs[i])?;
    }
    Some(sum)
}

// A row times a factor, on top of the sums. `next` leads over zeros of the row, where nothing changes.
fn add_listed<E: Enclosure>(
    sums: &mut [Rect<E>],
    f: Rect<E>,
    row: &[Rect<E>],
    next: &[u32],
) -> Option<()>
    requires same { length sums.old ≡ length row.now }
    requires leads { LeadsOver (map (rectangle_of E.ends) row.now) next.now }
    ensures { option_map (λ _. map (rectangle_of E.ends) sums.new) result
        ≡ each_two (add_times E.SCALE (rectangle_of E.ends f)) (map (rectangle_of E.ends) sums.old) (map (rectangle_of E.ends) row.now) }
{
    let mut i = next[0] as usize;
    while i < sums.len() {
        sums[i] = add_times(f, sums[i], row[i])?;
        i = next[i + 1] as usize;
    }
    Some(())
}

/// The sum of the matrix's rows, each times its factor, by the ways over the zeros of the rows.
pub fn combine_listed<E: Enclosure>(
    sums: &mut [Rect<E>],
    factors: &[Rect<E>],
    matrix: &Matrix<E>,
    ways: &[Vec<u32>],
) -> Option<()>
    requires sums_in { length sums.old ≡ matrix.now.size }
    requires factors_in { length factors.now ≡ matrix.now.size }
    requires ways_in { length ways.now ≡ matrix.now.size }
    requires ways { AreWays matrix.now.rows (map (λ r. r.items) ways.now) }
    ensures { option_map (λ _. map (rectangle_of E.ends) sums.new) result
        ≡ combination E.SCALE (replicate matrix.now.size nought_rectangle) (map (rectangle_of E.ends) factors.now) matrix.now.rows }
{
    clear_cells(sums);
    for i in 0..matrix.size() {
        add_listed(
            sums,
            factors[i as usize],
            matrix.row(i),
            ways[i as usize].as_slice(),
        )?;
    }
    Some(())
}
