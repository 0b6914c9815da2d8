// The middle matrix.
ghost use Rattle.std.specs.Prelude.{◌≡◌, ◌<◌, map};
ghost use Rattle.std.specs.List.{All};
ghost use Rattle.std.specs.Option.{option_map};
ghost use Rattle.admittance_box.specs.BoxMatrix.{nought_rows};
ghost use Rattle.branchwise_test.specs.Drops.{with_middles};
ghost use Rattle.drop_bench.specs.Drops.{drop_ends, IsInside};

use crate::drops::DropIntervals;
use admittance_box::add_pairs;
use complex_interval::Enclosure;
use plain_elimination::Matrix;

/// The matrix with the middle of each drop for each pair of its taps, from zeros on.
pub fn write_middle<E: Enclosure>(matrix: &mut Matrix<E>, drops: &[DropIntervals<E>]) -> Option<()>
    requires { All (IsInside matrix.old.size) drops.now }
    ensures rows { option_map (λ _. matrix.new.rows) result ≡ with_middles E.SCALE (map (drop_ends E.ends) drops.now) (nought_rows matrix.old.size) }
    ensures size { matrix.new.size ≡ matrix.old.size }
{
    matrix.clear();
    for drop in drops {
        add_pairs(drop.middle, drop.pairs.as_slice(), matrix)?;
    }
    Some(())
}
