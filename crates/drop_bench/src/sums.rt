// Sums of sizes, in units of 1 / 2^SCALE. A number that is kept is at most 2^62.
ghost use Rattle.std.specs.Prelude.{◌≡◌, ◌+◌, ◌-◌, ◌*◌, ◌^◌, ◌<◌, ◌≤◌, IfOk, length, map};
ghost use Rattle.certified_inverse.specs.Certificate.{in_size, ceil_over};
ghost use Rattle.admittance_box.specs.Intervals.{placed_ends};
ghost use Rattle.branchwise_test.specs.Reach.{add_up, products_from, with_edge, edge_from};

use admittance_box::PlacedTap;
use certified_inverse::{in_size, unit_of};
use complex_interval::Enclosure;
use std::alloc::{AllocError, Global};

/// So many zeros.
pub fn zeros(alloc: Global, count: usize) -> Result<Vec<u64>, AllocError>
    ensures { IfOk result (λ v. length v.items ≡ count) }
{
    let mut numbers = Vec::new(alloc);
    numbers.resize(count, 0)?;
    Ok(numbers)
}

/// top/bottom, rounded up.
pub fn ceil_over(top: u128, bottom: u128) -> u128
    requires some { 0 < bottom }
    requires room { top + bottom < 2 ^ 128 }
    ensures value { result ≡ ceil_over top bottom }
    ensures bound { result ≤ top }
{
    (top + (bottom - 1)) / bottom
}

/// The sum, and on top of it a·b/2^scale rounded up.
pub fn add_up(scale: u32, sum: u64, a: u64, b: u64) -> Option<u64>
    requires { scale ≤ 48 }
    ensures { result ≡ add_up scale sum a b }
{
    let product = a as u128 * b as u128;
    in_size(sum as u128 + ceil_over(product, unit_of(scale)))
}

/// So for each two numbers, in order.
pub fn products_from(scale: u32, first: u64, factors: &[u64], numbers: &[u64]) -> Option<u64>
    requires scale_in { scale ≤ 48 }
    requires numbers_in { length factors.now ≤ length numbers.now }
    ensures { result ≡ products_from scale first factors.now numbers.now }
{
    let mut sum = first;
    for i in 0..factors.len() {
        sum = add_up(scale, sum, factors[i], numbers[i])?;
    }
    Some(sum)
}

// The sum, and on top of it the greatest size of the tap's ratio times the number at its place, over 2^SCALE and rounded up.
fn add_edge<E: Enclosure>(sum: u64, tap: PlacedTap<E>, numbers: &[u64]) -> Option<u64>
    ensures { result ≡ with_edge E.SCALE sum (placed_ends E.ends tap) numbers.now }
{
    let place = tap.place as usize;
    if place < numbers.len() {
        add_up(E::SCALE, sum, tap.ratio.mag(), numbers[place])
    } else {
        None
    }
}

/// So for each tap.
pub fn edge_from<E: Enclosure>(taps: &[PlacedTap<E>], numbers: &[u64]) -> Option<u64>
    ensures { result ≡ edge_from E.SCALE 0 (map (placed_ends E.ends) taps.now) numbers.now }
{
    let mut sum = 0;
    for tap in taps {
        sum = add_edge(sum, *tap, numbers)?;
    }
    Some(sum)
}
