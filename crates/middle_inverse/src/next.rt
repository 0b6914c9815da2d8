// The way from each place of a row to the next that isn't zero.
ghost use Rattle.std.specs.Prelude.{◌≡◌, ◌+◌, ◌≤◌, length, map};
ghost use Rattle.middle_inverse.specs.Leads.{LeadsOver};
ghost use Rattle.middle_inverse.specs.Points.{rectangle_at};
ghost use Rattle.plain_elimination.specs.declared.limits.TheConstants.{MAX_SIZE};

use crate::point::is_nought;
use crate::raw::Point;

/// Of each place the next whose entry isn't zero, the place itself where that is one.
pub fn write_next(next: &mut [u32], row: &[Point])
    requires size { length next.old ≡ length row.now + 1 }
    requires few { length row.now ≤ MAX_SIZE + MAX_SIZE }
    ensures { LeadsOver (map rectangle_at row.now) next.new }
{
    let mut i = row.len();
    next[i] = i as u32;
    while 0 < i {
        i -= 1;
        if is_nought(row[i]) {
            next[i] = next[i + 1];
        } else {
            next[i] = i as u32;
        }
    }
}
