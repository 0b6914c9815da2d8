// Weights, and how much of themselves they reach.
ghost use Rattle.std.specs.Prelude.{◌≡◌, ◌+◌, ◌*◌, ◌/◌, ◌^◌, ◌<◌, ◌≤◌, length};
ghost use Rattle.std.specs.List.{All};
ghost use Rattle.std.specs.Option.{option_map};
ghost use Rattle.middle_inverse.specs.Lists.{greatest};
ghost use Rattle.certified_inverse.specs.Certificate.{in_size, ceil_over};
ghost use Rattle.branchwise_test.specs.Reach.{weights_over, theta_over};

use crate::sums::ceil_over;
use certified_inverse::{in_size, unit_of};

// The greatest of the numbers, 0 of none.
fn greatest_of(numbers: &[u64]) -> u64
    ensures { result ≡ greatest numbers.now }
{
    let mut greatest = 0;
    for number in numbers {
        greatest = greatest.max(*number);
    }
    greatest
}

// A number, raised by the greatest over 2^20 and by 65536.
fn raised(number: u64, most: u64) -> Option<u64>
    ensures { result ≡ in_size (number + most / 2 ^ 20 + 65536) }
{
    in_size(number as u128 + most as u128 / 1_048_576 + 65_536)
}

/// Weights above what is reached.
pub fn write_weights(weights: &mut [u64], reached: &[u64]) -> Option<()>
    requires { length weights.old ≡ length reached.now }
    ensures { option_map (λ _. weights.new) result ≡ weights_over reached.now }
{
    let most = greatest_of(reached);
    for i in 0..reached.len() {
        weights[i] = raised(reached[i], most)?;
    }
    Some(())
}

// What is reached at a drop over its weight.
fn part_of(scale: u32, reached: u64, weight: u64) -> u128
    requires scale_in { scale ≤ 48 }
    requires some { 0 < weight }
    ensures { result ≡ ceil_over (reached * 2 ^ scale) weight }
{
    ceil_over(reached as u128 * unit_of(scale), weight as u128)
}

/// The greatest part of its weight that is reached at a drop.
pub fn theta_over(scale: u32, reached: &[u64], weights: &[u64]) -> u128
    requires scale_in { scale ≤ 48 }
    requires count { length reached.now ≡ length weights.now }
    requires some { All (λ w. 0 < w) weights.now }
    ensures { result ≡ theta_over scale reached.now weights.now }
{
    let mut theta: u128 = 0;
    for i in 0..reached.len() {
        theta = theta.max(part_of(scale, reached[i], weights[i]));
    }
    theta
}
