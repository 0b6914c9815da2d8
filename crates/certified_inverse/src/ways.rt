// The ways over the zeros of a matrix's rows.
ghost use Rattle.std.specs.Prelude.{◌≡◌, ◌+◌, ◌≤◌, length, map};
ghost use Rattle.std.specs.List.{All};
ghost use Rattle.complex_interval.specs.Rect.{rectangle_of};
ghost use Rattle.plain_elimination.specs.Matrix.{Square};
ghost use Rattle.middle_inverse.specs.Leads.{LeadsOver};
ghost use Rattle.certified_inverse.specs.Ways.{AreWays};
ghost use Rattle.plain_elimination.specs.declared.limits.TheConstants.{MAX_SIZE};

use complex_interval::{Enclosure, Rect};
use plain_elimination::{Matrix, is_zero};

// Of each place the next whose entry isn't zero, the place itself where that is one.
fn write_way<E: Enclosure>(next: &mut [u32], row: &[Rect<E>])
    requires size { length next.old ≡ length row.now + 1 }
    requires few { length row.now ≤ MAX_SIZE }
    ensures { LeadsOver (map (rectangle_of E.ends) row.now) next.new }
{
    let mut i = row.len();
    next[i] = i as u32;
    while 0 < i {
        i -= 1;
        if is_zero(row[i]) {
            next[i] = next[i + 1];
        } else {
            next[i] = i as u32;
        }
    }
}

/// Of each row of the matrix, and of each place in it, the next whose entry isn't zero.
pub fn write_ways<E: Enclosure>(ways: &mut [Vec<u32>], matrix: &Matrix<E>)
    requires few { matrix.now.size ≤ MAX_SIZE }
    requires count { length ways.old ≡ matrix.now.size }
    requires wide { All (λ r. length r.items ≡ matrix.now.size + 1) ways.old }
    ensures ways { AreWays matrix.now.rows (map (λ r. r.items) ways.new) }
    ensures wide { All (λ r. length r.items ≡ matrix.now.size + 1) ways.new }
{
    for i in 0..matrix.size() {
        write_way(ways[i as usize].as_mut_slice(), matrix.row(i));
    }
}
