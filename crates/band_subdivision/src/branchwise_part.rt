// The branch-wise part of the interval test: what an estimate of the impedance over a box of orders says.
ghost use Rattle.std.specs.Prelude.{◌≡◌, ◌≤◌, ◌<◌, ◌^◌};
ghost use Rattle.exact_fraction.specs.Root.{root_ceil_of};
ghost use Rattle.complex_interval.specs.Rect.{rectangle_of};
ghost use Rattle.complex_interval.specs.Rectangles.{low_square_sum, high_square_sum};
ghost use Rattle.drop_bench.specs.Near.{near_of};
ghost use Rattle.drop_bench.specs.Results.{result_of};
ghost use Rattle.band_subdivision.specs.InverseTest.{most_within, least_above, root_floor_of};
ghost use Rattle.band_subdivision.specs.BranchwisePart.{is_within_near, ohms_over_near};
ghost use Rattle.band_subdivision.specs.Levels.{IsKept, levels_in};

use crate::scan_levels::ScanLevels;
use crate::size_test::{is_size_within, ohms_of_size, root_above, root_below};
use branchwise_test::BranchwiseFault;
use complex_interval::{Enclosure, Rect};
use drop_bench::Near;

/// Whether each number within the error of one that the estimate holds is at most the threshold in size.
pub fn is_within_near<E: Enclosure>(
    levels: &ScanLevels,
    found: Result<Near<E>, BranchwiseFault>,
) -> bool
    requires { IsKept levels.now }
    ensures { result ≡ is_within_near (most_within E.SCALE (levels_in levels.now)) (result_of (near_of E.ends) found) }
{
    match found {
        Ok(near) => {
            let most = greatest_size(near.estimate) as u128 + near.error as u128;
            is_size_within(E::SCALE, levels, most)
        }
        Err(_) => false,
    }
}

/// The micro-ohms of an estimate, where each of these numbers is more than the threshold in size.
pub fn ohms_over_near<E: Enclosure>(
    levels: &ScanLevels,
    found: Result<Near<E>, BranchwiseFault>,
) -> Option<i128>
    requires { IsKept levels.now }
    ensures { result ≡ ohms_over_near E.SCALE (levels_in levels.now) (least_above E.SCALE (levels_in levels.now)) (result_of (near_of E.ends) found) }
{
    match found {
        Ok(near) => {
            let least = least_size(near.estimate);
            ohms_of_size(E::SCALE, levels, least, near.error)
        }
        Err(_) => None,
    }
}

/// The greatest size of a number of the rectangle, rounded up.
fn greatest_size<E: Enclosure>(estimate: Rect<E>) -> u64
    ensures { result ≡ root_ceil_of (high_square_sum (rectangle_of E.ends estimate)) }
{
    root_above(estimate.high_square())
}

/// The least size of a number of the rectangle, rounded down.
fn least_size<E: Enclosure>(estimate: Rect<E>) -> u64
    ensures value { result ≡ root_floor_of (low_square_sum (rectangle_of E.ends estimate)) }
    ensures bound { result ≤ 2 ^ 63 }
{
    root_below(estimate.low_square())
}
